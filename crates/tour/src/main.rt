//! A round of bidding over a small book: each call is printed with what it answered, then the rows of the closed book, then the winners
//! under each ranking.
#![tactic(auto)]

mod printed;

use crate::printed::{Asked, Line, Told, Winners};
use book::{Call, ClosedBook, OpenBook};
use ranking::{ByItem, ByRoot, ByValue};
use rules::{AllocationRule, Greedy};
use sets::{BidderSet, Bundle};
use settlement::award;
use std::io;

// Shorter in a list of calls than the variants with the names of their fields; the tour and the tests share no crate.
fn enter(bundle: Bundle, value: u32) -> Call {
    Call::Enter { bundle, value }
}

fn revise(bidder: usize, value: u32) -> Call {
    Call::Revise { bidder, value }
}

/// Four items and four bids, with calls in between that are refused. The last bid of bidder 2 is `last_bid`.
fn small_round(last_bid: u32) -> [Call; 16] {
    let first_two = Bundle::single(0).with(1);
    let last_two = Bundle::single(2).with(3);
    [
        Call::Size { items: 0 },
        Call::Size { items: 65 },
        Call::Size { items: 4 },
        enter(Bundle::all_below(4), 100),
        Call::Size { items: 8 },
        enter(first_two, 70),
        enter(Bundle::empty(), 60),
        enter(Bundle::single(4), 60),
        enter(last_two, 100_000_001),
        enter(last_two, 90),
        revise(2, last_bid),
        revise(3, 40),
        enter(Bundle::single(3), 40),
        revise(3, 100_000_001),
        Call::Show { bidder: 3 },
        Call::Show { bidder: 4 },
    ]
}

/// Makes the calls on a fresh book, and prints each with its answer.
fn hold(rt: &impl Print, calls: &[Call]) -> io::Result<OpenBook> {
    let mut book = OpenBook::new();
    for &call in calls {
        println!(rt; "{}: {}", Asked(call), Told(book.apply(call)))?;
    }
    Ok(book)
}

fn print_rows(rt: &impl Print, book: &ClosedBook) -> io::Result<()> {
    println!(rt; "closed, items: {}, rows: {}", book.items(), book.len())?;
    for (bidder, &row) in book.rows().iter().enumerate() {
        println!(rt; "bidder {bidder}: {}", Line(row))?;
    }
    Ok(())
}

fn print_award<Rule: AllocationRule>(
    rt: &impl Print,
    name: &str,
    rule: &Rule,
    book: &ClosedBook,
) -> io::Result<()> {
    let (winners, welfare) = award(rule, book);
    println!(rt; "{name}: {}, welfare {welfare}", Winners(winners))
}

fn small_book(rt: &impl Print) -> io::Result<()> {
    let book = hold(rt, &small_round(60))?.close();
    print_rows(rt, &book)?;
    let welfare = book.welfare(BidderSet::single(1).with(2));
    println!(rt; "welfare of bidders 1 and 2: {welfare}")?;
    print_award(rt, "VALUE", &Greedy { ranking: ByValue }, &book)?;
    print_award(rt, "ROOT", &Greedy { ranking: ByRoot }, &book)?;
    print_award(rt, "ITEM", &Greedy { ranking: ByItem }, &book)
}

/// The same calls with another value in the last bid of bidder 2: only its value moves.
fn other_value(rt: &impl Print) -> io::Result<()> {
    print_rows(rt, &OpenBook::from_calls(&small_round(85)).close())
}

/// A bidder who withdraws.
fn withdrawal(rt: &impl Print) -> io::Result<()> {
    let calls = [
        enter(Bundle::single(63), 100_000_000),
        Call::Withdraw { bidder: 0 },
        Call::Withdraw { bidder: 0 },
        revise(0, 5),
        Call::Withdraw { bidder: 1 },
    ];
    print_rows(rt, &hold(rt, &calls)?.close())
}

fn main(rt: HostRuntime) -> io::Result<()> {
    println!(rt; "A small book")?;
    small_book(&rt)?;
    println!(rt; "\nThe same calls with 85 in the last bid of bidder 2")?;
    other_value(&rt)?;
    println!(rt; "\nA withdrawal")?;
    withdrawal(&rt)
}
