ghost use Rattle.std.specs.Prelude.{◌≤◌, length};
ghost use Rattle.book.specs.Limits.{EachKept};

use crate::row::Row;
use arrayvec::ArrayVec;

mod methods;

/// A book has at most this many items.
pub const ITEM_LIMIT: usize = 64;

/// A book has at most this many rows.
pub const ROW_LIMIT: usize = 64;

/// The greatest value of a row, in cents.
pub const VALUE_LIMIT: u32 = 100_000_000;

/// What an open and a closed book hold: how many items there are, and the rows in order of entry.
#[derive(Drop)]
pub(crate) struct Ledger {
    pub(crate) items: usize,
    pub(crate) rows: ArrayVec<Row, ROW_LIMIT>,
    ghost sized: { (1 ≤ items) × (items ≤ 64) },
    ghost few: { length rows.items ≤ 64 },
    ghost kept: { EachKept items rows.items },
}
