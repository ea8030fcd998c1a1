ghost use Rattle.rules.specs.Choices.{chosen, Precedes};
ghost use Rattle.std.proofs.Common.{rules};

use crate::allotment::Allotment;
use book::ROW_LIMIT;
use ranking::Order;
use std::cmp::Reverse;

mod methods;

/// Room for one choice of each bidder, and one more.
pub(crate) const PLACES: usize = ROW_LIMIT + 1;

/// A set of bidders who share no item, and its welfare.
#[derive(Clone, Copy)]
pub(crate) struct Choice {
    pub(crate) allotment: Allotment,
    welfare: u64,
}

/// The greater welfare first, of equals the lower word.
#[derive(Clone, Copy)]
pub(crate) struct ByWelfare;

impl Order<Choice> for ByWelfare {
    ghost before = { λ _. Precedes };

    ghost identity = { chosen };

    ghost ordered = { Prim.search rules };

    fn comes_before(&self, a: &Choice, b: &Choice) -> bool {
        (Reverse(a.welfare), a.allotment.winners.word())
            < (Reverse(b.welfare), b.allotment.winners.word())
    }
}
