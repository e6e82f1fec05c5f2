//! The numbers of limits, and limits with other numbers.
ghost use Rattle.std.specs.Prelude.{◌≡◌, ◌↔◌, ℕ, MatchOption, IsTrue};
ghost use Rattle.page_units.specs.Limits.{AreLimits, default_limit, IsChanged};
ghost use Rattle.page_units.specs.LimitsOf.{number_of, Takes};

use super::{Limit, Limits};
use crate::text::LONGEST_TEXT;

impl Limit {
    /// The number that this limit has where nothing else is asked for.
    pub fn default_number(self) -> u64
        ensures { result ≡ default_limit self }
    {
        match self {
            Limit::Weight => 2_000_000,
            Limit::TaskSteps => 1_000_000,
            Limit::Depth => 600,
            Limit::Text => LONGEST_TEXT as u64,
            Limit::DomText => 1_048_576,
            Limit::Requests => 32,
            Limit::Firings => 1_000,
            Limit::Guesses => 64,
            Limit::Contexts => 16,
            Limit::PerIdle => 8,
            Limit::SpecSteps => 200_000,
            Limit::SpecWeight => 100_000,
            Limit::SketchSteps => 20_000,
            Limit::Served => 100_000,
        }
    }
}

impl Default for Limits {
    /// Each number is its default.
    fn default() -> Limits
        ensures { (limit : Limit) → number_of result limit ≡ default_limit limit }
    {
        Limits {
            weight: Limit::Weight.default_number(),
            task_steps: Limit::TaskSteps.default_number(),
            depth: Limit::Depth.default_number(),
            text: Limit::Text.default_number(),
            dom_text: Limit::DomText.default_number(),
            requests: Limit::Requests.default_number(),
            firings: Limit::Firings.default_number(),
            guesses: Limit::Guesses.default_number(),
            contexts: Limit::Contexts.default_number(),
            per_idle: Limit::PerIdle.default_number(),
            spec_steps: Limit::SpecSteps.default_number(),
            spec_weight: Limit::SpecWeight.default_number(),
            sketch_steps: Limit::SketchSteps.default_number(),
            served: Limit::Served.default_number(),
        }
    }
}

impl Limits {
    /// The number of this limit.
    pub fn number(&self, limit: Limit) -> u64
        ensures { result ≡ number_of self.now limit }
    {
        match limit {
            Limit::Weight => self.weight,
            Limit::TaskSteps => self.task_steps,
            Limit::Depth => self.depth,
            Limit::Text => self.text,
            Limit::DomText => self.dom_text,
            Limit::Requests => self.requests,
            Limit::Firings => self.firings,
            Limit::Guesses => self.guesses,
            Limit::Contexts => self.contexts,
            Limit::PerIdle => self.per_idle,
            Limit::SpecSteps => self.spec_steps,
            Limit::SpecWeight => self.spec_weight,
            Limit::SketchSteps => self.sketch_steps,
            Limit::Served => self.served,
        }
    }

    /// These limits with another number for one of them; None exactly where those are no limits.
    pub fn with(&self, limit: Limit, number: u64) -> Option<Limits>
        ensures { MatchOption result
            ((numbers : Limit → ℕ) → IsChanged limit number (number_of self.now) numbers → ¬ AreLimits numbers)
            (λ limits. IsChanged limit number (number_of self.now) (number_of limits)) }
    {
        if !self.takes(limit, number) {
            return None;
        }
        Some(Limits {
            weight: self.changed(Limit::Weight, limit, number),
            task_steps: self.changed(Limit::TaskSteps, limit, number),
            depth: self.changed(Limit::Depth, limit, number),
            text: self.changed(Limit::Text, limit, number),
            dom_text: self.changed(Limit::DomText, limit, number),
            requests: self.changed(Limit::Requests, limit, number),
            firings: self.changed(Limit::Firings, limit, number),
            guesses: self.changed(Limit::Guesses, limit, number),
            contexts: self.changed(Limit::Contexts, limit, number),
            per_idle: self.changed(Limit::PerIdle, limit, number),
            spec_steps: self.changed(Limit::SpecSteps, limit, number),
            spec_weight: self.changed(Limit::SpecWeight, limit, number),
            sketch_steps: self.changed(Limit::SketchSteps, limit, number),
            served: self.changed(Limit::Served, limit, number),
        })
    }

    /// Whether these are limits with this number for one of them.
    fn takes(&self, limit: Limit, number: u64) -> bool
        ensures { IsTrue result ↔ Takes self.now limit number }
    {
        match limit {
            Limit::Text => number == self.text,
            Limit::SpecSteps => number <= self.task_steps,
            Limit::TaskSteps => {
                self.spec_steps <= number && number <= Limit::TaskSteps.default_number()
            }
            _ => number <= limit.default_number(),
        }
    }

    /// This number where the limit is the changed one, and else the limit's own.
    fn changed(&self, limit: Limit, changed: Limit, number: u64) -> u64
        ensures same { limit ≡ changed → result ≡ number }
        ensures other { ¬ (limit ≡ changed) → result ≡ number_of self.now limit }
    {
        if limit == changed {
            number
        } else {
            self.number(limit)
        }
    }
}
