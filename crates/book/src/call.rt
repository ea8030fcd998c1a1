use crate::row::Row;
use sets::Bundle;

// Data and no closures: what the rules say is said of lists of calls, and `apply` picks the method.
/// A call on an open book.
#[derive(Clone, Copy)]
pub enum Call {
    Size { items: usize },
    Enter { bundle: Bundle, value: u32 },
    Revise { bidder: usize, value: u32 },
    Withdraw { bidder: usize },
    Show { bidder: usize },
}

/// What an accepted call answers.
#[derive(Clone, Copy, PartialEq, Eq, Debug)]
pub enum Answer {
    Done,
    Entered(usize),
    Shown(Row),
}
