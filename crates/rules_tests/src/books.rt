//! Books and rules that several tests ask about, and checks of what a rule answers.
use book::{ClosedBook, OpenBook};
use layers::{Better, BundleTest, Filtered};
use ranking::{ByItem, ByRoot, ByValue};
use rules::{AllocationRule, Greedy};
use sets::{BidderSet, Bundle};
use settlement::award;
use std::process::Abort;
use std::test::Fail;

pub(crate) const BY_VALUE: Greedy<ByValue> = Greedy { ranking: ByValue };

pub(crate) const BY_ROOT: Greedy<ByRoot> = Greedy { ranking: ByRoot };

pub(crate) const BY_ITEM: Greedy<ByItem> = Greedy { ranking: ByItem };

/// The rule, shown only the bundles that pass.
pub(crate) fn filtered<A: AllocationRule, T: BundleTest>(rule: A, test: T) -> Filtered<A, T> {
    Filtered { rule, test }
}

/// The better of the two rules.
pub(crate) fn better<A: AllocationRule, B: AllocationRule>(first: A, second: B) -> Better<A, B> {
    Better { first, second }
}

// Twice, since the two kinds of set share no type: one expression each.
pub(crate) fn bidders(numbers: &[usize]) -> BidderSet {
    numbers
        .iter()
        .copied()
        .fold(BidderSet::empty(), BidderSet::with)
}

pub(crate) fn items(numbers: &[usize]) -> Bundle {
    numbers.iter().copied().fold(Bundle::empty(), Bundle::with)
}

pub(crate) fn book(rows: &[(Bundle, u32)]) -> Result<OpenBook, Fail> {
    let mut book = OpenBook::new();
    for &(bundle, value) in rows {
        book.enter(bundle, value)?;
    }
    Ok(book)
}

/// 64 items, and a row for each of them.
pub(crate) fn single_items() -> Result<OpenBook, Fail> {
    let mut book = OpenBook::new();
    for item in 0..64 {
        book.enter(Bundle::single(item), 7)?;
    }
    Ok(book)
}

pub(crate) fn small_book() -> Result<OpenBook, Fail> {
    book(&[
        (items(&[0, 1, 2, 3]), 100),
        (items(&[0, 1]), 70),
        (items(&[2, 3]), 60),
        (items(&[3]), 40),
    ])
}

// In both checks what is asked, then what is expected: a struct of some of it would only be taken apart again.
pub(crate) fn check_award<R: AllocationRule>(
    rt: &impl Abort,
    rule: &R,
    book: &ClosedBook,
    winners: &[usize],
    welfare: u64,
) {
    assert_eq!(rt; award(rule, book), (bidders(winners), welfare));
}

pub(crate) fn check_choice<R: AllocationRule>(
    rt: &impl Abort,
    rule: &R,
    book: &ClosedBook,
    admitted: &[usize],
    winners: &[usize],
) {
    assert_eq!(rt; rule.choose(book, bidders(admitted)), bidders(winners));
}
