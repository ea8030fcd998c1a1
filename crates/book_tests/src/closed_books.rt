use crate::calls::{enter, full_book, revise};
use book::{Call, ClosedBook, Mark, OpenBook, Refusal, Row};
use sets::{BidderSet, Bundle};
use std::process::Abort;
use std::test::Fail;

fn check_same(rt: &impl Abort, a: &ClosedBook, b: &ClosedBook) {
    assert_eq!(rt; a.items(), b.items());
    assert_eq!(rt; a.len(), b.len());
    for (bidder, &row) in a.rows().iter().enumerate() {
        assert_eq!(rt; b.show(bidder), Ok(row));
    }
}

#[test]
fn fresh_book(rt: HostRuntime) {
    let book = OpenBook::new().close();
    assert_eq!(rt; book.items(), 64);
    assert_eq!(rt; book.len(), 0);
    assert_eq!(rt; book.show(0), Err(Refusal::NoSuchBidder));
    assert_eq!(rt; book.welfare(BidderSet::all_below(64)), 0);
}

#[test]
fn welfare(rt: HostRuntime) -> Result<(), Fail> {
    let book = full_book(&rt, 100_000_000)?.close();
    assert_eq!(rt; book.len(), 64);
    assert_eq!(rt; book.welfare(BidderSet::empty()), 0);
    assert_eq!(rt; book.welfare(BidderSet::single(63)), 100_000_000);
    assert_eq!(rt; book.welfare(BidderSet::all_below(64)), 6_400_000_000);
    Ok(())
}

#[test]
fn other_values(rt: HostRuntime) -> Result<(), Fail> {
    let book = full_book(&rt, 9)?.close();
    assert_eq!(rt;
        book.with_value(64, 100_000_001).err(),
        Some(Refusal::NoSuchBidder)
    );
    assert_eq!(rt;
        book.with_value(63, 100_000_001).err(),
        Some(Refusal::ValueAboveLimit)
    );
    let copy = book.with_value(63, 100_000_000)?;
    assert_eq!(rt; copy.welfare(BidderSet::all_below(64)), 100_000_567);
    assert_eq!(rt; book.welfare(BidderSet::all_below(64)), 576);
    let row = Row {
        bundle: Bundle::single(0),
        value: 100_000_000,
        mark: Mark::Standing,
    };
    assert_eq!(rt; copy.show(63), Ok(row));
    Ok(())
}

/// The last bid of bidder 0 is its first revision: a refused one and a withdrawal follow.
fn round(last_bid: u32) -> [Call; 7] {
    [
        Call::Size { items: 4 },
        enter(Bundle::single(0), 10),
        revise(0, last_bid),
        enter(Bundle::single(0).with(3), 20),
        revise(0, 100_000_001),
        Call::Withdraw { bidder: 0 },
        revise(0, 30),
    ]
}

#[test]
fn another_value_in_the_last_bid(rt: HostRuntime) -> Result<(), Fail> {
    let book = OpenBook::from_calls(&round(15)).close();
    assert_eq!(rt; book.items(), 4);
    assert_eq!(rt; book.len(), 2);
    assert_eq!(rt; book.welfare(BidderSet::all_below(2)), 35);
    for value in [0, 1, 99_999_999, 100_000_000] {
        check_same(
            &rt,
            &OpenBook::from_calls(&round(value)).close(),
            &book.with_value(0, value)?,
        );
    }
    Ok(())
}
