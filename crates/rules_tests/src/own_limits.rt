//! Code of a user that rests on the limits of a book and proves nothing of them: each call of a book tells them.
ghost use Rattle.std.specs.Prelude.{IfOk};
ghost use Rattle.book.specs.Limits.{WithinLimits};

use book::{ClosedBook, OpenBook, Refusal};

/// The number of items, which fits a byte.
pub(crate) fn item_count(book: &ClosedBook) -> u8 {
    book.items() as u8
}

/// The bidder's value, which fits an `i32`.
pub(crate) fn signed_value(book: &ClosedBook, bidder: usize) -> Result<i32, Refusal> {
    let row = book.show(bidder)?;
    Ok(row.value as i32)
}

/// The copy with another value is within the limits too.
pub(crate) fn other_value(
    book: &ClosedBook,
    bidder: usize,
    value: u32,
) -> Result<ClosedBook, Refusal>
    ensures { IfOk result (λ copy. WithinLimits copy) }
{
    book.with_value(bidder, value)
}

/// An open book is within them before a call and after it, a refused one too.
pub(crate) fn revised(book: &mut OpenBook, bidder: usize, value: u32) -> Result<(), Refusal>
    ensures { WithinLimits book.old × WithinLimits book.new }
{
    book.revise(bidder, value)
}
