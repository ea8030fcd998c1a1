ghost use Rattle.std.specs.Prelude.{◌≡◌};
ghost use Rattle.book.specs.Limits.{WithinLimits};
ghost use Rattle.layers.specs.Better.{BetterOf, better};
ghost use Rattle.layers.specs.TwoRules.{better_monotone, better_bitonic};

use book::ClosedBook;
use rules::AllocationRule;
use sets::BidderSet;

/// The winners of the first rule if their welfare is at least that of the second's winners, otherwise those of the second.
#[derive(Clone, Copy)]
pub struct Better<A: AllocationRule, B: AllocationRule> {
    pub first: A,
    pub second: B,
}

impl<A: AllocationRule, B: AllocationRule> AllocationRule for Better<A, B> {
    ghost winners = { λ s. better (A.winners s.first) (B.winners s.second) };

    ghost monotone = { λ s. better_monotone _ _ (A.monotone s.first) (A.bitonic s.first) (B.monotone s.second) (B.bitonic s.second) };

    ghost bitonic = { λ s. better_bitonic _ _ (A.monotone s.first) (A.bitonic s.first) (B.monotone s.second) (B.bitonic s.second) };

    fn choose(&self, book: &ClosedBook, admitted: BidderSet) -> BidderSet
        ensures rule { result.word ≡ better (A.winners self.now.first) (B.winners self.now.second) book.now admitted.word }
        ensures chosen { BetterOf book.now (A.winners self.now.first book.now admitted.word) (B.winners self.now.second book.now admitted.word) result.word }
        ensures limits { WithinLimits book.now }
    {
        let first = self.first.choose(book, admitted);
        let second = self.second.choose(book, admitted);
        if book.welfare(first) >= book.welfare(second) {
            first
        } else {
            second
        }
    }
}
