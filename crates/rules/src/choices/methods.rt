ghost use Rattle.std.specs.Prelude.{◌+◌, ◌^◌, ◌<◌, ◌≤◌, length};
ghost use Rattle.rules.specs.Choices.{Empty, Grows, Foremost};

use crate::allotment::Allotment;
use crate::choices::{ByWelfare, Choice};
use book::Row;
use ranking::first;

/// Nobody: what the search begins with, and what fills the unused places of a list of choices.
// By hand, so that its clause is in words of the set, where a derive speaks of the fields.
impl Default for Choice {
    ghost is_default = { Empty };

    fn default() -> Self {
        Choice {
            allotment: Allotment::none(),
            welfare: 0,
        }
    }
}

impl Choice {
    /// The first of the choices, of which there is one at least.
    #[tactic(auto, using(crate::proofs::Extending::foremost_at))]
    pub(crate) fn first_of(choices: &[Choice]) -> Choice
        requires { 1 ≤ length choices.now }
        ensures { Foremost choices.now result }
    {
        let place = first(&ByWelfare, choices).unwrap();
        choices[place]
    }

    /// The choice with one bidder more.
    // Number and row as `enumerate` gives them.
    pub(crate) fn with(self, bidder: usize, row: &Row) -> Choice
        requires { self.welfare + row.now.value < 2 ^ 64 }
        ensures { Grows self bidder row.now result }
    {
        Choice {
            allotment: self.allotment.with(bidder, row.bundle),
            welfare: self.welfare + u64::from(row.value),
        }
    }
}
