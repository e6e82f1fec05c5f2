//! Requests with what they ask, streams with what is read of them, and replies with their bytes, worked out by hand: the
//! rows of `wire_asks`, `wire_replies` and `http_wire`. What a group's name says before its first `:` tells how its
//! rows are read.
#![tactic(auto)]

mod bodies;
mod prefixes;
mod replies;
mod streams;
mod texts;
mod told;

use row_files::{Answers, kind_of, run};
use std::alloc::{AllocError, Global};

struct Wires;

impl Answers for Wires {
    fn answer(&self, alloc: Global, group: &str, fields: &[String]) -> Result<String, AllocError> {
        match kind_of(group) {
            "requests" => told::told_request(alloc, fields),
            "streams" => streams::told_stream(alloc, fields),
            "failing reads" => streams::told_failing(alloc, fields),
            "counted reads" => streams::told_counted(alloc, fields),
            "replies" => replies::told_reply(alloc, fields),
            "what refusals say" => replies::told_refusal(alloc, fields),
            "codes" => replies::told_code(alloc, fields),
            "prefixes" => prefixes::told_prefixes(alloc, fields),
            "bodies of events" => bodies::told_event(alloc, fields),
            "bodies of ticks" => bodies::told_tick(alloc, fields),
            "bodies of loads" => bodies::told_load(alloc, fields),
            "bodies of counts" => bodies::told_counts(alloc, fields),
            _ => String::from_str(alloc, "no such group"),
        }
    }
}

fn main(rt: HostRuntime) -> anyhow::Result<()> {
    run(rt, &Wires)
}
