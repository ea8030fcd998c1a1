ghost use Rattle.rules_tests.specs.Own.{smaller_first};
ghost use Rattle.std.proofs.Common.{rules};

use ranking::{Contender, Ranking};
use std::cmp::Reverse;

/// The greater value first, of equal values the smaller bundle.
#[derive(Clone, Copy)]
pub struct SmallerFirst;

impl Ranking for SmallerFirst {
    ghost before = { λ _. smaller_first };

    ghost ranks = { Prim.search rules };

    fn comes_before(&self, a: &Contender, b: &Contender) -> bool {
        (Reverse(a.value), a.size, a.number) < (Reverse(b.value), b.size, b.number)
    }
}
