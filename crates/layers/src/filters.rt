ghost use Rattle.std.specs.Prelude.{◌≡◌};
ghost use Rattle.book.specs.Limits.{WithinLimits};
ghost use Rattle.layers.specs.Filters.{Passing, Shown, passing, filtered};
ghost use Rattle.layers.specs.ShownBidders.{filtered_monotone, filtered_bitonic};

use crate::bundle_tests::BundleTest;
use book::ClosedBook;
use rules::AllocationRule;
use sets::BidderSet;

/// The rule, shown only the bidders whose bundle passes the test.
#[derive(Clone, Copy)]
pub struct Filtered<A: AllocationRule, T: BundleTest> {
    pub rule: A,
    pub test: T,
}

impl<A: AllocationRule, T: BundleTest> Filtered<A, T> {
    /// The admitted bidders but for those whose bundle does not pass.
    // Book and admitted bidders as `choose` has them.
    fn admit(&self, book: &ClosedBook, admitted: BidderSet) -> BidderSet
        ensures word { result.word ≡ passing (T.meaning self.now.test) book.now admitted.word }
        ensures members { Passing (T.meaning self.now.test) book.now admitted.word result.word }
        ensures limits { WithinLimits book.now }
    {
        let mut left = admitted;
        for (bidder, row) in book.rows().iter().enumerate() {
            if !self.test.passes(row.bundle) {
                left = left.without(bidder);
            }
        }
        left
    }
}

impl<A: AllocationRule, T: BundleTest> AllocationRule for Filtered<A, T> {
    ghost winners = { λ s. filtered (T.meaning s.test) (A.winners s.rule) };

    ghost monotone = { λ rule. filtered_monotone (T.meaning rule.test) _ (A.monotone rule.rule) };

    ghost bitonic = { λ rule. filtered_bitonic (T.meaning rule.test) _ (A.bitonic rule.rule) };

    fn choose(&self, book: &ClosedBook, admitted: BidderSet) -> BidderSet
        ensures rule { result.word ≡ filtered (T.meaning self.now.test) (A.winners self.now.rule) book.now admitted.word }
        ensures shown { Shown (T.meaning self.now.test) (A.winners self.now.rule) book.now admitted.word result.word }
        ensures limits { WithinLimits book.now }
    {
        self.rule.choose(book, self.admit(book, admitted))
    }
}
