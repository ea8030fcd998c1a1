//! The bid book: the rows that bidders enter, revise and withdraw, and the closed book that awards are made from.
#![tactic(auto)]

mod argument;
mod call;
mod closed;
mod ledger;
mod open;
mod refusal;
mod row;
mod runs;

pub use argument::Argument;
pub use call::{Answer, Call};
pub use closed::ClosedBook;
pub use ledger::{ITEM_LIMIT, ROW_LIMIT, VALUE_LIMIT};
pub use open::OpenBook;
pub use refusal::Refusal;
pub use row::{Mark, Row};
