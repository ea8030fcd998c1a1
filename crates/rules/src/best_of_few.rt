ghost use Rattle.std.specs.Prelude.{◌≡◌, ◌+◌, ◌^◌, ◌<◌, ◌≤◌, [], ◌∷◌};
ghost use Rattle.sets.specs.Members.{Within};
ghost use Rattle.book.specs.Checks.{Makes, argument_between};
ghost use Rattle.book.specs.Limits.{WithinLimits};
ghost use Rattle.rules.specs.Best.{IsBest, best, BestTheorems};
ghost use Rattle.rules.specs.Choices.{chosen, Sound, JoinedBy, BestExtension};
ghost use Rattle.rules.specs.Rounds.{IsRowOf};
ghost use Rattle.rules.specs.BestExists.{best_theorems};

use crate::choices::{Choice, PLACES};
use crate::interface::AllocationRule;
use crate::rounds::Round;
use arrayvec::ArrayVec;
use book::{Argument, ClosedBook, Refusal, Row};
use sets::BidderSet;

/// Of all sets of at most so many bidders who take part and share no item, the one of greatest welfare, and among equals the lowest word.
#[derive(Clone, Copy)]
pub struct Best {
    most: Argument<1, 3>,
}

impl Best {
    /// `most` is 1 to 3.
    // One line, as of the tests of bundles: the check of the range stands once, in `Argument`.
    pub fn new(most: usize) -> Result<Best, Refusal>
        ensures { Makes (argument_between 1 3 most ∷ []) (λ rule. rule.most.number ≡ most) result }
    {
        Ok(Best {
            most: most.try_into()?,
        })
    }
}

impl AllocationRule for Best {
    ghost winners = { λ s. best s.most.number };

    ghost monotone = { λ rule. (best_theorems rule.most.number).lawful.monotone };

    ghost bitonic = { λ rule. (best_theorems rule.most.number).lawful.bitonic };

    fn choose(&self, book: &ClosedBook, admitted: BidderSet) -> BidderSet
        ensures rule { result.word ≡ best self.now.most.number book.now admitted.word }
        ensures best { IsBest self.now.most.number book.now admitted.word result.word }
        ensures theorems { BestTheorems self.now.most.number }
        ensures limits { WithinLimits book.now }
    {
        Round::new(book, admitted).best_of(self.most.get())
    }
}

impl Round<'_> {
    /// The best set of at most `most` bidders: the best that the empty set can be extended to.
    // Said of the round, so that the clauses `rule` and `best` of `choose` follow from these by search.
    fn best_of(&self, most: usize) -> BidderSet
        ensures rule { result.word ≡ best most self.now.book.now self.now.admitted.word }
        ensures best { IsBest most self.now.book.now self.now.admitted.word result.word }
    {
        self.extend(Choice::default(), 0, most).allotment.winners
    }

    /// The first of the sets that `choice` and at most `more` further bidders, none of them below `from`, make: of the choice itself and,
    /// for each bidder that can join, the first of those of which it is the lowest new member.
    #[tactic(auto, using(crate::proofs::Extending::gathered_start))]
    fn extend(&self, choice: Choice, from: usize, more: usize) -> Choice
        requires sound { Sound self.now.book.now self.now.admitted.word choice }
        requires below { Within from (chosen choice) }
        ensures sound { Sound self.now.book.now self.now.admitted.word result }
        ensures first { BestExtension self.now.book.now self.now.admitted.word from more (chosen choice) (chosen result) }
    {
        if more == 0 {
            return choice;
        }
        let mut choices = ArrayVec::<Choice, PLACES>::new();
        choices.push(choice);
        for (bidder, row) in self.rows.iter().enumerate().skip(from) {
            if let Some(larger) = self.join(choice, bidder, row) {
                choices.push(self.extend(larger, bidder + 1, more - 1));
            }
        }
        Choice::first_of(choices.as_slice())
    }

    // Number and row as `enumerate` gives them.
    /// The choice with one bidder more; none if the bidder does not take part or shares an item with it.
    fn join(&self, choice: Choice, bidder: usize, row: &Row) -> Option<Choice>
        requires own { IsRowOf self.now.book.now bidder row.now }
        requires room { choice.welfare + row.now.value < 2 ^ 64 }
        ensures { JoinedBy self.now.book.now self.now.admitted.word choice bidder result }
    {
        let joins = self.takes_part(bidder, row) && !choice.allotment.overlaps(row.bundle);
        joins.then(|| choice.with(bidder, row))
    }
}
