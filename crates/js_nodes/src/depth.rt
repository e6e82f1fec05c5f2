//! How many levels what was read takes.
ghost use Rattle.std.specs.Prelude.{◌≡◌, ◌≤◌, ◌<◌, ◌+◌, MatchOption, max};
ghost use Rattle.js_nodes.specs.Operands as operands;

use crate::fault::Fault;

/// How many levels a piece takes, and where the first node on its lowest level begins.
#[derive(Clone, Copy, Debug, PartialEq, Eq)]
pub struct Depth {
    /// The levels; 0 where there is no node.
    pub height: u8,
    /// The place of the first token of the first node on the lowest level.
    pub deepest: u32,
}

/// Of what has no node.
pub const NOTHING: Depth = Depth {
    height: 0,
    deepest: 0,
};

impl Depth {
    /// Of two pieces beside each other, this the first.
    #[tactic(auto, unfolding(crate::specs::Operands::both))]
    pub fn both(self, other: Depth) -> Depth
        ensures value { result ≡ operands.both self other }
        ensures height { result.height ≡ max self.height other.height }
    {
        if self.height < other.height {
            other
        } else {
            self
        }
    }

    /// Of a node, or a pair of parentheses, that begins here, over its parts.
    #[tactic(auto, unfolding(crate::specs::Operands::raised))]
    pub fn raised(self, at: u32) -> Depth
        requires { self.height < 255 }
        ensures value { result ≡ operands.raised at self }
        ensures height { result.height ≡ self.height + 1 }
    {
        if self.height == 0 {
            Depth {
                height: 1,
                deepest: at,
            }
        } else {
            Depth {
                height: self.height + 1,
                deepest: self.deepest,
            }
        }
    }

    /// What is wrong where no level is left for one node more on top.
    pub fn level_flaw(self, room: u8) -> Option<Fault>
        ensures left { MatchOption result (self.height < room) (λ _. Unit {0}) }
        ensures value { result ≡ operands.level_flaw room self }
    {
        if self.height < room {
            None
        } else {
            Some(Fault::Nesting(self.deepest))
        }
    }
}
