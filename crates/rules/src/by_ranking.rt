ghost use Rattle.std.specs.Prelude.{◌≡◌};
ghost use Rattle.book.specs.Limits.{WithinLimits};
ghost use Rattle.rules.specs.Greedy.{IsGreedy, greedy, GreedyTheorems};
ghost use Rattle.rules.specs.GreedyExists.{greedy_theorems};

use crate::allotment::Allotment;
use crate::interface::AllocationRule;
use crate::rounds::Round;
use arrayvec::ArrayVec;
use book::{ClosedBook, ROW_LIMIT};
use ranking::{Contender, Ranking, first};
use sets::BidderSet;

/// In ranking order, each bidder wins who shares no item with a winner before it.
#[derive(Clone, Copy)]
pub struct Greedy<R: Ranking> {
    pub ranking: R,
}

impl<R: Ranking> AllocationRule for Greedy<R> {
    ghost winners = { λ s. greedy (R.before s.ranking) };

    ghost monotone = { λ rule. (greedy_theorems (R.before rule.ranking) (R.ranks rule.ranking)).lawful.monotone };

    ghost bitonic = { λ rule. (greedy_theorems (R.before rule.ranking) (R.ranks rule.ranking)).lawful.bitonic };

    #[tactic(auto, using(crate::proofs::Serving::serving_start))]
    fn choose(&self, book: &ClosedBook, admitted: BidderSet) -> BidderSet
        ensures rule { result.word ≡ greedy (R.before self.now.ranking) book.now admitted.word }
        ensures turns { IsGreedy (R.before self.now.ranking) book.now admitted.word result.word }
        ensures theorems { GreedyTheorems (R.before self.now.ranking) }
        ensures limits { WithinLimits book.now }
    {
        let round = Round::new(book, admitted);
        let mut waiting = ArrayVec::<Contender, ROW_LIMIT>::new();
        round.list_contenders(&mut waiting);
        let mut allotment = Allotment::none();
        while let Some(place) = first(&self.ranking, waiting.as_slice()) {
            let next = waiting.swap_remove(place).number;
            allotment = allotment.offer(next, round.rows[next].bundle);
        }
        allotment.winners
    }
}
