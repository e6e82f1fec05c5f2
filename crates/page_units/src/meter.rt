//! Steps, counted against a bound.
ghost use Rattle.std.specs.Prelude.{◌≡◌, ◌↔◌, ◌+◌, ◌≤◌, IsTrue, cond, true, false};
ghost use Rattle.page_units.specs.Metered.{unused, begun, made_whole, ticked};

use std::marker::Model;

/// Counts the steps of a task against its bound, and all steps that were ever counted. Where
/// several tasks are to share one bound, the meter is made whole, and the beginnings of the tasks
/// do nothing until that ends.
#[derive(Drop, Debug)]
pub struct Meter {
    used: u64,
    bound: u64,
    total: u64,
    is_whole: bool,
}

impl Model for Meter {
    ghost use Rattle.page_units.specs.Metered.{Metered};
    ghost use Rattle.std.specs.Prelude.{◌≤◌};

    ghost Value = { Metered };

    ghost view = { λ m. record { used = m.used; bound = m.bound; total = m.total; is_whole = m.is_whole } };

    ghost invariant = { λ m. m.used ≤ m.bound };
}

impl Meter {
    /// A meter that counted nothing, at the bound 0.
    pub fn new() -> Meter
        ensures { result ≡ unused }
    {
        Meter {
            used: 0,
            bound: 0,
            total: 0,
            is_whole: false,
        }
    }

    /// Begins a task with this bound, in steps: nothing is used. While the meter is whole it does
    /// nothing.
    pub fn begin(&mut self, bound: u64)
        ensures { self.new ≡ begun bound self.old }
    {
        if !self.is_whole {
            self.used = 0;
            self.bound = bound;
        }
    }

    /// Begins tasks that share this bound, in steps, and makes the meter whole. While it is whole
    /// it does nothing.
    pub fn whole(&mut self, bound: u64)
        ensures { self.new ≡ made_whole true (begun bound self.old) }
    {
        self.begin(bound);
        self.is_whole = true;
    }

    /// Ends the sharing: the meter is not whole any more.
    pub fn end_whole(&mut self)
        ensures { self.new ≡ made_whole false self.old }
    {
        self.is_whole = false;
    }

    /// Counts `n` steps, and answers true exactly where they stay within the bound; else nothing
    /// is changed. The total stays at `u64::MAX` once it has reached it.
    pub fn tick(&mut self, n: u64) -> bool
        ensures fits { IsTrue result ↔ self.old.used + n ≤ self.old.bound }
        ensures counts { self.new ≡ cond result (ticked n self.old) self.old }
    {
        if self.bound - self.used < n {
            return false;
        }
        self.used += n;
        self.total = self.total.saturating_add(n);
        true
    }

    /// How many steps were counted since the meter began.
    pub fn used(&self) -> u64
        ensures { result ≡ self.now.used }
    {
        self.used
    }

    /// How many steps were ever counted.
    pub fn total(&self) -> u64
        ensures { result ≡ self.now.total }
    {
        self.total
    }
}
