//! The step that each node of a tree takes.
ghost use Rattle.std.specs.Prelude.{◌≡◌, ◌+◌, ◌<◌, ℕ, Err};
ghost use Rattle.js_tree.specs.declared.expr.Expr.{Expr, out-Expr};
ghost use Rattle.js_tree.specs.declared.stmt.Stmt.{Stmt, out-Stmt};
ghost use Rattle.js_rules.specs.declared.frame.Frame.{Frame};
ghost use Rattle.js_rules.specs.Fixed.{Fixed};
ghost use Rattle.js_rules.specs.World.{World};
ghost use Rattle.js_rules.specs.Tasks.{Values, Flows, Eval, Exec};
ghost use Rattle.js_rules.specs.Prog.{Tick, Enter};
ghost use Rattle.js_rules.specs.Expressions.{expression};
ghost use Rattle.js_rules.specs.Statements.{statement};
ghost use Rattle.js_rules.specs.Rules.{rule};
ghost use Rattle.js_rules.specs.Does.{Evaluates};

use crate::stop::Stop;
use page_units::RunFault;

/// How many steps an expression or a statement takes before all else that it does (this project's
/// own). It goes one level deeper next.
pub fn node_steps() -> u64
    ensures expressions { (fixed : Fixed) (f : Frame) (x : Expr) →
        rule fixed (Eval f x) ≡ Tick result (Enter (expression fixed f x (out-Expr x))) }
    ensures statements { (fixed : Fixed) (f : Frame) (x : Stmt) →
        rule fixed (Exec f x) ≡ Tick result (Enter (statement f (out-Stmt x))) }
{
    1
}

/// How an expression or a statement ends where its first step is above the bound of the task: at
/// once, with nothing changed.
pub fn refused_node() -> Stop
    ensures expressions { (fixed : Fixed) (depth : ℕ) (f : Frame) (x : Expr) (old : World) →
        old.meter.bound < old.meter.used + 1 →
        Evaluates fixed depth Values (Eval f x) old old (Err result) }
    ensures statements { (fixed : Fixed) (depth : ℕ) (f : Frame) (x : Stmt) (old : World) →
        old.meter.bound < old.meter.used + 1 →
        Evaluates fixed depth Flows (Exec f x) old old (Err result) }
{
    Stop::Fault(RunFault::Steps)
}
