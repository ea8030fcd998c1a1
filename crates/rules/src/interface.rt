ghost use Rattle.std.specs.Prelude.{◌≡◌};
ghost use Rattle.rules.specs.Laws.{Rule, Monotone, Bitonic};

use book::ClosedBook;
use sets::BidderSet;

/// One question: who wins, of the admitted bidders?
pub trait AllocationRule {
    ghost winners: { Self → Rule };

    // Two parameters and no struct: a rule over another one passes the book on, and may admit fewer.
    fn choose(&self, book: &ClosedBook, admitted: BidderSet) -> BidderSet
        ensures { result.word ≡ winners self.now book.now admitted.word };

    // Winners take part and share no item; who wins still wins with a greater value.
    ghost monotone: { (rule : Self) → Monotone (winners rule) };

    // With a greater value of a bidder that loses all the same, welfare does not rise; of one that wins all the same, it does not fall.
    ghost bitonic: { (rule : Self) → Bitonic (winners rule) };
}
