//! What `js_ops` gives of operands, as the rows write it.
use crate::operators::{operator_with_one, operator_with_two};
use crate::values::{in_quotes, value_of, written};
use js_ops::{
    NumberOf, OpFault, binary, is_primitive, number_of, suits_binary, suits_unary, text_of,
    truth_of, unary,
};
use page_units::{BinOp, Meter, Value};
use std::alloc::{AllocError, Global};

/// The steps that a row allows where it does not say how many.
const STEPS: u64 = 100;

/// What the group asks of one value: whether it is primitive, its number, or its text and its truth.
pub fn of_value(alloc: Global, group: &str, value: &Value) -> Result<String, AllocError> {
    if group == "primitive values" {
        return is_primitive(value).to_string(alloc);
    }
    if !is_primitive(value) {
        return String::from_str(alloc, "not primitive");
    }
    if group == "numbers of texts" {
        return number_word(alloc, number_of(value));
    }
    let text = in_quotes(alloc, &text_of(alloc, value)?)?;
    format!(in alloc; "{text}, {}", truth_of(value))
}

fn number_word(alloc: Global, number: NumberOf) -> Result<String, AllocError> {
    match number {
        NumberOf::Num(number) => number.to_string(alloc),
        NumberOf::NoNumber => String::from_str(alloc, "no number"),
        NumberOf::Outside => String::from_str(alloc, "outside"),
    }
}

/// What the operator gives of one operand.
pub fn of_one(alloc: Global, op: &str, a: &str) -> Result<String, AllocError> {
    let Some(op) = operator_with_one(op) else {
        return String::from_str(alloc, "no operator");
    };
    let a = value_of(alloc, a)?;
    if !suits_unary(op, &a) {
        return String::from_str(alloc, "not suited");
    }
    outcome(alloc, unary(alloc, op, &a))
}

/// What the operator gives of two operands.
pub fn of_two(alloc: Global, a: &str, op: &str, b: &str) -> Result<String, AllocError> {
    let Some(op) = operator_with_two(op) else {
        return String::from_str(alloc, "no operator");
    };
    let (a, b) = (value_of(alloc, a)?, value_of(alloc, b)?);
    if !suits_binary(op, &a, &b) {
        return String::from_str(alloc, "not suited");
    }
    let mut meter = Meter::new();
    meter.begin(STEPS);
    outcome(alloc, binary(alloc, op, &a, &b, &mut meter))
}

/// How the operator ends on two operands within a bound of steps, and how many it uses.
pub fn steps_of_two(
    alloc: Global,
    a: &str,
    op: &str,
    b: &str,
    bound: &str,
) -> Result<String, AllocError> {
    let (Some(op), Ok(bound)) = (operator_with_two(op), bound.parse::<u64>()) else {
        return String::from_str(alloc, "no operator or no bound");
    };
    let (a, b) = (value_of(alloc, a)?, value_of(alloc, b)?);
    steps_within(alloc, op, &a, &b, bound)
}

fn steps_within(
    alloc: Global,
    op: BinOp,
    a: &Value,
    b: &Value,
    bound: u64,
) -> Result<String, AllocError> {
    if !suits_binary(op, a, b) {
        return String::from_str(alloc, "not suited");
    }
    let mut meter = Meter::new();
    meter.begin(bound);
    let end = match binary(alloc, op, a, b, &mut meter) {
        Ok(_) => "done",
        Err(fault) => fault_word(&fault),
    };
    format!(in alloc; "{end}, {} used", meter.used())
}

fn outcome(alloc: Global, answer: Result<Value, OpFault>) -> Result<String, AllocError> {
    match answer {
        Ok(value) => written(alloc, &value),
        Err(fault) => String::from_str(alloc, fault_word(&fault)),
    }
}

fn fault_word(fault: &OpFault) -> &'static str {
    match fault {
        OpFault::NotWhole => "not whole",
        OpFault::TooLong => "too long",
        OpFault::Steps => "too many steps",
        OpFault::NoMemory => "out of memory",
    }
}
