//! Nodes on top of what was read.
ghost use Rattle.std.specs.Prelude.{◌≡◌, ◌≤◌, ◌<◌, ◌+◌, max, [], ◌∷◌, ◌++◌, Some, None, IfOk};
ghost use Rattle.js_nodes.specs.Operators as operators;
ghost use Rattle.js_nodes.specs.Operands as operands;
ghost use Rattle.js_tree.specs.declared.expr.Expr.TheVariants as e;
ghost use Rattle.js_nodes.specs.Pieces as pieces;

use crate::depth::Depth;
use crate::keyed::KeyedEntries;
use crate::names::Names;
use crate::operand::{Coded, Entries, Operand, Row, node, unboxed};
use crate::operators::{assigned, joined};
use crate::series::{Body, Cases, Decls, Said, Series, State};
use js_lexer::Kind;
use js_tree::{Case, Decl, Entry, Expr, Stmt};
use page_units::{NoMemory, Text};
use sqlite_items::{Boxed, Items};
use std::alloc::Global;

/// A property of an expression.
pub fn member_node(alloc: Global, x: Operand, name: Text) -> Result<Operand, NoMemory>
    requires { x.depth.height < 255 }
    ensures value { IfOk result (λ z. z ≡ operands.over (e.Member x.value name) x) }
    ensures height { IfOk result (λ z. z.depth.height ≡ x.depth.height + 1) }
{
    node(alloc, Expr::Member(x.value, name), x.codes, x.at, x.depth)
}

/// A property whose key stands in brackets, of an expression that begins here.
pub fn index_node(
    alloc: Global,
    value: Boxed<Expr>,
    at: u32,
    depth: Depth,
    y: Operand,
) -> Result<Operand, NoMemory>
    requires left { depth.height < 255 }
    requires right { y.depth.height < 255 }
    ensures value { IfOk result (λ z. z ≡ operands.operand (e.Index value y.value) y.codes at (operands.raised at (operands.both depth y.depth))) }
    ensures height { IfOk result (λ z. z.depth.height ≡ max depth.height y.depth.height + 1) }
{
    node(
        alloc,
        Expr::Index(value, y.value),
        y.codes,
        at,
        depth.both(y.depth),
    )
}

/// A call of an expression that begins here.
pub fn call_node(
    alloc: Global,
    value: Boxed<Expr>,
    at: u32,
    depth: Depth,
    row: Row,
) -> Result<Operand, NoMemory>
    requires left { depth.height < 255 }
    requires right { row.depth.height < 255 }
    ensures value { IfOk result (λ z. z ≡ operands.operand (e.Call value row.values) row.codes at (operands.raised at (operands.both depth row.depth))) }
    ensures height { IfOk result (λ z. z.depth.height ≡ max depth.height row.depth.height + 1) }
{
    node(
        alloc,
        Expr::Call(value, row.values),
        row.codes,
        at,
        depth.both(row.depth),
    )
}

/// A `new` that stands here.
pub fn new_node(
    alloc: Global,
    value: Boxed<Expr>,
    at: u32,
    depth: Depth,
    row: Row,
) -> Result<Operand, NoMemory>
    requires left { depth.height < 255 }
    requires right { row.depth.height < 255 }
    ensures value { IfOk result (λ z. z ≡ operands.operand (e.New value row.values) row.codes at (operands.raised at (operands.both depth row.depth))) }
    ensures height { IfOk result (λ z. z.depth.height ≡ max depth.height row.depth.height + 1) }
{
    node(
        alloc,
        Expr::New(value, row.values),
        row.codes,
        at,
        depth.both(row.depth),
    )
}

/// What an operator makes of an expression that begins here and of what stands behind it.
pub fn binary_node(
    alloc: Global,
    kind: &Kind,
    value: Boxed<Expr>,
    at: u32,
    depth: Depth,
    y: Operand,
) -> Result<Operand, NoMemory>
    requires left { depth.height < 255 }
    requires right { y.depth.height < 255 }
    ensures value { IfOk result (λ z. z ≡ operands.operand (operators.joined kind.now value y.value) y.codes at (operands.raised at (operands.both depth y.depth))) }
    ensures height { IfOk result (λ z. z.depth.height ≡ max depth.height y.depth.height + 1) }
{
    node(
        alloc,
        joined(kind, value, y.value),
        y.codes,
        at,
        depth.both(y.depth),
    )
}

/// An assignment to an expression that begins here.
pub fn assign_node(
    alloc: Global,
    kind: &Kind,
    value: Boxed<Expr>,
    at: u32,
    depth: Depth,
    y: Operand,
) -> Result<Operand, NoMemory>
    requires left { depth.height < 255 }
    requires right { y.depth.height < 255 }
    ensures value { IfOk result (λ z. z ≡ operands.operand (operators.assigned kind.now value y.value) y.codes at (operands.raised at (operands.both depth y.depth))) }
    ensures height { IfOk result (λ z. z.depth.height ≡ max depth.height y.depth.height + 1) }
{
    node(
        alloc,
        assigned(kind, value, y.value),
        y.codes,
        at,
        depth.both(y.depth),
    )
}

/// A comma behind an expression that begins here.
pub fn comma_node(
    alloc: Global,
    value: Boxed<Expr>,
    at: u32,
    depth: Depth,
    y: Operand,
) -> Result<Operand, NoMemory>
    requires left { depth.height < 255 }
    requires right { y.depth.height < 255 }
    ensures value { IfOk result (λ z. z ≡ operands.operand (e.Comma value y.value) y.codes at (operands.raised at (operands.both depth y.depth))) }
    ensures height { IfOk result (λ z. z.depth.height ≡ max depth.height y.depth.height + 1) }
{
    node(
        alloc,
        Expr::Comma(value, y.value),
        y.codes,
        at,
        depth.both(y.depth),
    )
}

/// A conditional whose test begins here, with the levels of the test and of what stands behind the `?`.
pub fn cond_node(
    alloc: Global,
    test: Boxed<Expr>,
    at: u32,
    depth: Depth,
    yes: Boxed<Expr>,
    z: Operand,
) -> Result<Operand, NoMemory>
    requires left { depth.height < 255 }
    requires right { z.depth.height < 255 }
    ensures value { IfOk result (λ v. v ≡ operands.operand (e.Cond test yes z.value) z.codes at (operands.raised at (operands.both depth z.depth))) }
    ensures height { IfOk result (λ v. v.depth.height ≡ max depth.height z.depth.height + 1) }
{
    node(
        alloc,
        Expr::Cond(test, yes, z.value),
        z.codes,
        at,
        depth.both(z.depth),
    )
}

/// Expressions with one more.
pub fn more_values(values: Items<Expr>, depth: Depth, x: Operand) -> Result<Row, NoMemory>
    ensures value { IfOk result (λ r. r ≡ operands.row (values ++ x.value ∷ []) x.codes (operands.both depth x.depth)) }
    ensures height { IfOk result (λ r. r.depth.height ≡ max depth.height x.depth.height) }
{
    let mut values = values;
    values.push(x.value.into_inner())?;
    Ok(Row {
        values,
        codes: x.codes,
        depth: depth.both(x.depth),
    })
}

/// Entries with one more.
pub fn more_entries(
    entries: KeyedEntries,
    depth: Depth,
    key: Text,
    x: Operand,
) -> Result<Entries, NoMemory>
    ensures value { IfOk result (λ o. o ≡ pieces.entries (entries ++ record { key = key; value = x.value } ∷ []) x.codes (operands.both depth x.depth)) }
    ensures height { IfOk result (λ o. o.depth.height ≡ max depth.height x.depth.height) }
{
    let entries = entries.put(Entry {
        key,
        value: x.value.into_inner(),
    })?;
    Ok(Entries {
        entries,
        codes: x.codes,
        depth: depth.both(x.depth),
    })
}

/// Statements with one more.
pub fn more_stmts(stmts: Items<Stmt>, depth: Depth, x: Said) -> Result<Series, NoMemory>
    ensures value { IfOk result (λ y. y ≡ pieces.series (stmts ++ x.stmt ∷ []) x.state (operands.both depth x.depth)) }
    ensures height { IfOk result (λ y. y.depth.height ≡ max depth.height x.depth.height) }
{
    let mut stmts = stmts;
    stmts.push(x.stmt.into_inner())?;
    Ok(Series {
        stmts,
        state: x.state,
        depth: depth.both(x.depth),
    })
}

/// A declaration.
#[derive(Drop)]
pub struct Declared {
    /// Its name.
    pub name: Text,
    /// Its value, if it has one.
    pub value: Option<Boxed<Expr>>,
    /// The levels of the value.
    pub depth: Depth,
}

/// Declarations with one more, behind which this was added.
pub fn more_decls(
    decls: Items<Decl>,
    depth: Depth,
    decl: Declared,
    state: State,
) -> Result<Decls, NoMemory>
    ensures value { IfOk result (λ d. d ≡ pieces.decls (decls ++ record { name = decl.name; value = decl.value } ∷ []) (pieces.declared state decl.name) (operands.both depth decl.depth)) }
    ensures height { IfOk result (λ d. d.depth.height ≡ max depth.height decl.depth.height) }
{
    let state = state.declare(&decl.name)?;
    let mut decls = decls;
    decls.push(Decl {
        name: decl.name,
        value: unboxed(decl.value),
    })?;
    Ok(Decls {
        decls,
        state,
        depth: depth.both(decl.depth),
    })
}

/// Parts of a `switch` with one more.
pub fn more_cases(
    cases: Items<Case>,
    has_default: bool,
    depth: Depth,
    test: Option<Boxed<Expr>>,
    y: Series,
) -> Result<Cases, NoMemory>
    ensures value { IfOk result (λ c. c ≡ pieces.cases (cases ++ record { test = test; body = y.stmts } ∷ []) y.state has_default (operands.both depth y.depth)) }
    ensures height { IfOk result (λ c. c.depth.height ≡ max depth.height y.depth.height) }
{
    let mut cases = cases;
    cases.push(Case {
        test: unboxed(test),
        body: y.stmts,
    })?;
    Ok(Cases {
        cases,
        state: y.state,
        has_default,
        depth: depth.both(y.depth),
    })
}

/// A body with one statement more.
pub fn more_body(
    stmts: Items<Stmt>,
    funs: Items<u32>,
    depth: Depth,
    x: Said,
) -> Result<Body, NoMemory>
    ensures value { IfOk result (λ b. b ≡ pieces.body (stmts ++ x.stmt ∷ []) x.state funs (operands.both depth x.depth)) }
    ensures height { IfOk result (λ b. b.depth.height ≡ max depth.height x.depth.height) }
{
    let mut stmts = stmts;
    stmts.push(x.stmt.into_inner())?;
    Ok(Body {
        stmts,
        state: x.state,
        funs,
        depth: depth.both(x.depth),
    })
}

/// A body with one function more, which is declared here.
pub fn more_funs(
    body: Items<Stmt>,
    vars: Names,
    funs: Items<u32>,
    depth: Depth,
    number: u32,
    at: u32,
    all: Coded,
) -> Result<Body, NoMemory>
    requires { all.depth.height < 255 }
    ensures value { IfOk result (λ b. b ≡ pieces.body body (pieces.state all.codes vars) (funs ++ number ∷ []) (operands.both depth (operands.raised at all.depth))) }
    ensures height { IfOk result (λ b. b.depth.height ≡ max depth.height (all.depth.height + 1)) }
{
    let mut funs = funs;
    funs.push(number)?;
    Ok(Body {
        stmts: body,
        state: State {
            codes: all.codes,
            vars,
        },
        funs,
        depth: depth.both(all.depth.raised(at)),
    })
}
