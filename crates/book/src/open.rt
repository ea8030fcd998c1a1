ghost use Rattle.std.specs.Prelude.{◌≡◌, length};
ghost use Rattle.book.specs.declared.call.Call.TheVariants.{Size, Enter, Revise, Withdraw, Show};
ghost use Rattle.book.specs.Checks.{Serves};
ghost use Rattle.book.specs.Limits.{WithinLimits};
ghost use Rattle.book.specs.Model.{fresh, row};

use crate::closed::ClosedBook;
use crate::ledger::{ITEM_LIMIT, Ledger, VALUE_LIMIT};
use crate::refusal::Refusal;
use crate::row::{Mark, Row};
use arrayvec::ArrayVec;
use sets::Bundle;
use std::marker::Model;

/// A book that takes bids. A refused call changes nothing.
#[derive(Drop)]
pub struct OpenBook {
    ledger: Ledger,
}

impl Model for OpenBook {
    ghost use Rattle.book.specs.Model.{Book};
    ghost use Rattle.book.specs.Views.{recorded};

    ghost Value = { Book };

    ghost view = { λ book. recorded book.ledger };
}

impl OpenBook {
    /// A fresh book: 64 items and no rows.
    #[tactic(auto, using(crate::proofs::Kept::ledger_within))]
    pub fn new() -> OpenBook
        ensures made { result ≡ fresh }
        ensures limits { WithinLimits result }
    {
        OpenBook {
            ledger: Ledger {
                items: ITEM_LIMIT,
                rows: ArrayVec::new(),
            },
        }
    }

    /// Sets the number of items, before the first row is entered.
    #[tactic(auto, using(crate::proofs::Kept::ledger_within))]
    pub fn size(&mut self, items: usize) -> Result<(), Refusal>
        ensures served { Serves (Size items) tt self.old result self.new }
        ensures limits { WithinLimits self.old × WithinLimits self.new }
    {
        // read before the first check, so that its refusal, too, knows the limits
        let entered = !self.ledger.rows.is_empty();
        if items < 1 || items > ITEM_LIMIT {
            return Err(Refusal::ItemCountOutOfRange);
        }
        if entered {
            return Err(Refusal::SizeAfterEntry);
        }
        self.ledger.items = items;
        Ok(())
    }

    /// Adds a standing row, and gives its number.
    #[tactic(auto, using(crate::proofs::Kept::ledger_within))]
    pub fn enter(&mut self, bundle: Bundle, value: u32) -> Result<usize, Refusal>
        ensures served { Serves (Enter bundle value) (length self.old.rows) self.old result self.new }
        ensures limits { WithinLimits self.old × WithinLimits self.new }
    {
        if self.ledger.rows.is_full() {
            return Err(Refusal::BookFull);
        }
        if bundle.is_empty() {
            return Err(Refusal::EmptyBundle);
        }
        if !bundle.is_within(self.ledger.items) {
            return Err(Refusal::ItemOutOfRange);
        }
        if value > VALUE_LIMIT {
            return Err(Refusal::ValueAboveLimit);
        }
        let bidder = self.ledger.rows.len();
        self.ledger.rows.push(Row {
            bundle,
            value,
            mark: Mark::Standing,
        });
        Ok(bidder)
    }

    /// Gives a standing row another value.
    #[tactic(auto, using(crate::proofs::Kept::row_set, crate::proofs::Kept::ledger_within))]
    pub fn revise(&mut self, bidder: usize, value: u32) -> Result<(), Refusal>
        ensures served { Serves (Revise bidder value) tt self.old result self.new }
        ensures limits { WithinLimits self.old × WithinLimits self.new }
    {
        let row = self.ledger.standing_row(bidder)?;
        if value > VALUE_LIMIT {
            return Err(Refusal::ValueAboveLimit);
        }
        self.ledger.rows[bidder] = Row { value, ..row };
        Ok(())
    }

    /// Marks a standing row withdrawn.
    #[tactic(auto, using(crate::proofs::Kept::row_set, crate::proofs::Kept::ledger_within))]
    pub fn withdraw(&mut self, bidder: usize) -> Result<(), Refusal>
        ensures served { Serves (Withdraw bidder) tt self.old result self.new }
        ensures limits { WithinLimits self.old × WithinLimits self.new }
    {
        let row = Row {
            mark: Mark::Withdrawn,
            ..self.ledger.standing_row(bidder)?
        };
        self.ledger.rows[bidder] = row;
        Ok(())
    }

    /// The bidder's row.
    // One line over `Ledger::row`, as of a closed book.
    #[tactic(auto, using(crate::proofs::Kept::ledger_within))]
    pub fn show(&self, bidder: usize) -> Result<Row, Refusal>
        ensures served { Serves (Show bidder) (row self.now bidder) self.now result self.now }
        ensures limits { WithinLimits self.now }
    {
        self.ledger.row(bidder)
    }

    /// Uses the open book up, and gives the closed one that awards are made from.
    pub fn close(self) -> ClosedBook
        ensures same { result ≡ self }
        ensures limits { WithinLimits result }
    {
        ClosedBook::of(self.ledger)
    }
}
