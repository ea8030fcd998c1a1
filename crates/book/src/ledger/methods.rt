ghost use Rattle.std.specs.Prelude.{◌≡◌, [], ◌∷◌};
ghost use Rattle.book.specs.Model.{row as row_of};
ghost use Rattle.book.specs.Checks.{Answers, bidder_exists, bid_stands};
ghost use Rattle.book.specs.Views.{recorded};

use crate::ledger::Ledger;
use crate::refusal::Refusal;
use crate::row::{Mark, Row};
use arrayvec::ArrayVec;

impl Ledger {
    /// The bidder's row.
    pub(crate) fn row(&self, bidder: usize) -> Result<Row, Refusal>
        ensures { Answers (bidder_exists (recorded self.now) bidder ∷ []) (row_of (recorded self.now) bidder) result }
    {
        self.rows.get(bidder).copied().ok_or(Refusal::NoSuchBidder)
    }

    /// The bidder's row, which stands.
    pub(crate) fn standing_row(&self, bidder: usize) -> Result<Row, Refusal>
        ensures { Answers (bidder_exists (recorded self.now) bidder ∷ bid_stands (recorded self.now) bidder ∷ []) (row_of (recorded self.now) bidder) result }
    {
        let row = self.row(bidder)?;
        match row.mark {
            Mark::Standing => Ok(row),
            Mark::Withdrawn => Err(Refusal::BidWithdrawn),
        }
    }

    /// The same items and rows once more.
    pub(crate) fn copied(&self) -> Ledger
        ensures { recorded result ≡ recorded self.now }
    {
        let mut rows = ArrayVec::new();
        rows.try_extend_from_slice(self.rows.as_slice()).unwrap();
        Ledger {
            items: self.items,
            rows,
        }
    }
}
