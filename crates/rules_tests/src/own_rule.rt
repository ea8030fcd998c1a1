ghost use Rattle.std.specs.Prelude.{◌≡◌};
ghost use Rattle.rules_tests.specs.Own.{FirstComes, FirstTakingPart, first_come};
ghost use Rattle.rules_tests.specs.FirstComers.{first_come_lawful};

use book::{ClosedBook, Mark, Row};
use rules::AllocationRule;
use sets::BidderSet;

/// Only one bidder wins: of those who take part, the one with the lowest number.
#[derive(Clone, Copy)]
pub struct FirstCome;

impl AllocationRule for FirstCome {
    ghost winners = { λ _. first_come };

    ghost monotone = { λ rule. first_come_lawful.monotone };

    ghost bitonic = { λ rule. first_come_lawful.bitonic };

    fn choose(&self, book: &ClosedBook, admitted: BidderSet) -> BidderSet
        ensures rule { result.word ≡ first_come book.now admitted.word }
        ensures winner { FirstComes book.now admitted.word result.word }
    {
        first_taking_part(book.rows(), admitted).map_or(BidderSet::empty(), BidderSet::single)
    }
}

/// The lowest bidder who takes part.
// Of rows and no book: beside all that is known of a closed book, the check does not find the proof.
fn first_taking_part(rows: &[Row], admitted: BidderSet) -> Option<usize>
    ensures { FirstTakingPart rows.now admitted.word result }
{
    let mut bidders = rows.iter().enumerate();
    bidders.position(|(bidder, row)| row.mark == Mark::Standing && admitted.has(bidder))
}
