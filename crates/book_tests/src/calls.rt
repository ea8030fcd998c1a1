use book::{Answer, Call, Mark, OpenBook, Row};
use sets::Bundle;
use std::process::Abort;
use std::test::Fail;

// Shorter in a list of calls than the variants with the names of their fields; the tour and the tests share no crate.
pub(crate) fn enter(bundle: Bundle, value: u32) -> Call {
    Call::Enter { bundle, value }
}

pub(crate) fn revise(bidder: usize, value: u32) -> Call {
    Call::Revise { bidder, value }
}

/// A book of one item and 64 rows.
pub(crate) fn full_book(rt: &impl Abort, value: u32) -> Result<OpenBook, Fail> {
    let mut book = OpenBook::new();
    book.size(1)?;
    for bidder in 0..64 {
        assert_eq!(rt; book.enter(Bundle::single(0), value), Ok(bidder));
    }
    Ok(book)
}

/// Makes the calls in order: each must give its answer, or the number of its refusal.
// Numbers, and not cases of `Refusal`: the rules name a refusal by its number, and the tables expect what the rules say.
fn check_calls(rt: &impl Abort, book: &mut OpenBook, cases: &[(Call, Result<Answer, u8>)]) {
    for &(call, expected) in cases {
        assert_eq!(rt; book.apply(call).map_err(u8::from), expected);
    }
}

const DONE: Result<Answer, u8> = Ok(Answer::Done);

fn bidder(number: usize) -> Result<Answer, u8> {
    Ok(Answer::Entered(number))
}

#[test]
fn sizes(rt: HostRuntime) {
    let cases = [
        (Call::Size { items: 0 }, Err(1)),
        (Call::Size { items: 65 }, Err(1)),
        (Call::Size { items: 64 }, DONE),
        (Call::Size { items: 1 }, DONE),
        (enter(Bundle::single(0), 0), bidder(0)),
        (Call::Size { items: 1 }, Err(2)),
        // both checks fail: the first is answered
        (Call::Size { items: 0 }, Err(1)),
        (Call::Size { items: 65 }, Err(1)),
    ];
    check_calls(&rt, &mut OpenBook::new(), &cases);
}

#[test]
fn entries(rt: HostRuntime) {
    let none = Bundle::empty();
    let last = Bundle::single(63);
    let cases = [
        (enter(last, 0), bidder(0)),
        (enter(last, 100_000_000), bidder(1)),
        (enter(last, 100_000_001), Err(6)),
        (enter(last, u32::MAX), Err(6)),
        (enter(none, 1), Err(4)),
        // no item is numbered 64
        (enter(Bundle::single(64), 1), Err(4)),
        (enter(none, 100_000_001), Err(4)),
        (enter(Bundle::all_below(64), 1), bidder(2)),
    ];
    check_calls(&rt, &mut OpenBook::new(), &cases);
}

#[test]
fn entries_in_few_items(rt: HostRuntime) {
    let cases = [
        (Call::Size { items: 63 }, DONE),
        (enter(Bundle::single(62), 1), bidder(0)),
        (enter(Bundle::single(63), 1), Err(5)),
        (enter(Bundle::single(0).with(63), 1), Err(5)),
        (enter(Bundle::single(63), 100_000_001), Err(5)),
        (enter(Bundle::all_below(63), 1), bidder(1)),
    ];
    check_calls(&rt, &mut OpenBook::new(), &cases);
}

#[test]
fn entries_in_a_full_book(rt: HostRuntime) -> Result<(), Fail> {
    let mut book = full_book(&rt, 1)?;
    let cases = [
        (enter(Bundle::single(0), 1), Err(3)),
        // three checks fail: the first is answered
        (enter(Bundle::empty(), 100_000_001), Err(3)),
        (enter(Bundle::single(1), 100_000_001), Err(3)),
        (revise(63, 2), DONE),
        (revise(64, 2), Err(7)),
    ];
    check_calls(&rt, &mut book, &cases);
    Ok(())
}

#[test]
fn revisions_and_withdrawals(rt: HostRuntime) {
    let bundle = Bundle::single(2).with(3);
    let row = Row {
        bundle,
        value: 100_000_000,
        mark: Mark::Standing,
    };
    let withdrawn = Row {
        mark: Mark::Withdrawn,
        ..row
    };
    let cases = [
        (Call::Show { bidder: 0 }, Err(7)),
        (Call::Withdraw { bidder: 0 }, Err(7)),
        (revise(0, 100_000_001), Err(7)),
        (enter(bundle, 7), bidder(0)),
        (revise(0, 100_000_001), Err(6)),
        (revise(1, 5), Err(7)),
        (revise(0, 100_000_000), DONE),
        (Call::Show { bidder: 0 }, Ok(Answer::Shown(row))),
        (Call::Withdraw { bidder: 0 }, DONE),
        (Call::Withdraw { bidder: 0 }, Err(8)),
        (revise(0, 5), Err(8)),
        (revise(0, 100_000_001), Err(8)),
        (Call::Show { bidder: 0 }, Ok(Answer::Shown(withdrawn))),
    ];
    check_calls(&rt, &mut OpenBook::new(), &cases);
}
