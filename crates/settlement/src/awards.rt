ghost use Rattle.std.specs.Prelude.{◌≡◌};
ghost use Rattle.book.specs.Limits.{WithinLimits};
ghost use Rattle.book.specs.Model.{welfare};
ghost use Rattle.settlement.specs.Awards.{everyone};

use book::ClosedBook;
use rules::AllocationRule;
use sets::BidderSet;

/// The winners, every bidder admitted, and their welfare.
pub fn award<Rule: AllocationRule>(rule: &Rule, book: &ClosedBook) -> (BidderSet, u64)
    ensures winners { result.0.word ≡ Rule.winners rule.now book.now everyone }
    ensures welfare { result.1 ≡ welfare book.now result.0.word }
    ensures limits { WithinLimits book.now }
{
    let winners = rule.choose(book, everyone());
    (winners, book.welfare(winners))
}

/// The set of all that can be bidders.
fn everyone() -> BidderSet
    ensures { result.word ≡ everyone }
{
    BidderSet::all_below(64)
}
