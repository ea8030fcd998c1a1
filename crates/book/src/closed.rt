ghost use Rattle.std.specs.Prelude.{◌≡◌, ◌≤◌, [], ◌∷◌, length, IfOk};
ghost use Rattle.book.specs.Checks.{Answers, bidder_exists, value_allowed};
ghost use Rattle.book.specs.Limits.{WithinLimits};
ghost use Rattle.book.specs.Model.{row, with_value, welfare as welfare_of};
ghost use Rattle.book.specs.Views.{recorded};

use crate::ledger::{Ledger, VALUE_LIMIT};
use crate::refusal::Refusal;
use crate::row::Row;
use sets::BidderSet;
use std::marker::Model;

/// A book that takes no more bids.
#[derive(Drop)]
pub struct ClosedBook {
    ledger: Ledger,
}

impl Model for ClosedBook {
    ghost use Rattle.book.specs.Model.{Book};
    ghost use Rattle.book.specs.Views.{recorded};

    ghost Value = { Book };

    ghost view = { λ book. recorded book.ledger };
}

// A type of its own beside `OpenBook`, by a rule of the project: so a bid in a closed book and an award of an open one do not compile.
// Each call of either book tells the limits: of a book a clause sees the model, which tells no invariant.
impl ClosedBook {
    #[tactic(auto, using(crate::proofs::Kept::ledger_within))]
    pub(crate) fn of(ledger: Ledger) -> ClosedBook
        ensures same { result ≡ recorded ledger }
        ensures limits { WithinLimits result }
    {
        ClosedBook { ledger }
    }

    /// The number of items.
    #[tactic(auto, using(crate::proofs::Kept::ledger_within))]
    pub fn items(&self) -> usize
        ensures value { result ≡ self.now.items }
        ensures limits { WithinLimits self.now }
    {
        self.ledger.items
    }

    /// The number of rows.
    #[tactic(auto, using(crate::proofs::Kept::ledger_within))]
    pub fn len(&self) -> usize
        ensures value { result ≡ length self.now.rows }
        ensures bound { result ≤ 64 }
        ensures limits { WithinLimits self.now }
    {
        self.ledger.rows.len()
    }

    /// The rows, in order of entry.
    #[tactic(auto, using(crate::proofs::Kept::ledger_within))]
    pub fn rows(&self) -> &[Row]
        ensures value { result.now ≡ self.now.rows }
        ensures bound { length result.now ≤ 64 }
        ensures limits { WithinLimits self.now }
    {
        self.ledger.rows.as_slice()
    }

    /// The bidder's row.
    // One line over `Ledger::row`, as of an open book.
    #[tactic(auto, using(crate::proofs::Kept::ledger_within))]
    pub fn show(&self, bidder: usize) -> Result<Row, Refusal>
        ensures shown { Answers (bidder_exists self.now bidder ∷ []) (row self.now bidder) result }
        ensures limits { WithinLimits self.now }
    {
        self.ledger.row(bidder)
    }

    /// The sum of the values that the bidders of `set` declare.
    pub fn welfare(&self, set: BidderSet) -> u64
        ensures sum { result ≡ welfare_of self.now set.word }
        ensures limits { WithinLimits self.now }
    {
        // A loop over the rows with their numbers, by a rule of the project: it reads as the sum is defined.
        let mut total = 0;
        for (bidder, row) in self.rows().iter().enumerate() {
            if set.has(bidder) {
                total += u64::from(row.value);
            }
        }
        total
    }

    /// The same book, in which the bidder declares `value`.
    #[tactic(auto, using(crate::proofs::Kept::row_set, crate::proofs::Kept::ledger_within))]
    pub fn with_value(&self, bidder: usize, value: u32) -> Result<ClosedBook, Refusal>
        ensures copy { Answers (bidder_exists self.now bidder ∷ value_allowed value ∷ []) (with_value bidder value self.now) result }
        ensures limits { WithinLimits self.now }
        ensures copy_limits { IfOk result (λ copy. WithinLimits copy) }
    {
        let row = self.ledger.row(bidder)?;
        if value > VALUE_LIMIT {
            return Err(Refusal::ValueAboveLimit);
        }
        let mut ledger = self.ledger.copied();
        ledger.rows[bidder] = Row { value, ..row };
        Ok(ClosedBook::of(ledger))
    }
}
