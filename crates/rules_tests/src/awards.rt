use crate::books::{
    BY_ITEM, BY_ROOT, BY_VALUE, book, check_award, check_choice, items, single_items, small_book,
};
use crate::own_ranking::SmallerFirst;
use book::OpenBook;
use rules::{AllocationRule, Greedy};
use sets::{BidderSet, Bundle};
use settlement::award;
use std::test::Fail;

const BY_SMALLER: Greedy<SmallerFirst> = Greedy {
    ranking: SmallerFirst,
};

#[test]
fn small_book_under_each_ranking(rt: HostRuntime) -> Result<(), Fail> {
    let book = small_book()?.close();
    check_award(&rt, &BY_VALUE, &book, &[0], 100);
    check_award(&rt, &BY_ROOT, &book, &[0], 100);
    check_award(&rt, &BY_ITEM, &book, &[1, 3], 110);
    Ok(())
}

#[test]
fn no_rows(rt: HostRuntime) {
    check_award(&rt, &BY_VALUE, &OpenBook::new().close(), &[], 0);
}

#[test]
fn value_zero_wins(rt: HostRuntime) -> Result<(), Fail> {
    let book = book(&[(items(&[63]), 0)])?.close();
    check_award(&rt, &BY_VALUE, &book, &[0], 0);
    check_award(&rt, &BY_ROOT, &book, &[0], 0);
    check_award(&rt, &BY_ITEM, &book, &[0], 0);
    Ok(())
}

#[test]
fn ties_go_to_the_lower_number(rt: HostRuntime) -> Result<(), Fail> {
    let book = book(&[(items(&[0]), 5), (items(&[0]), 5)])?.close();
    check_award(&rt, &BY_VALUE, &book, &[0], 5);
    check_award(&rt, &BY_ROOT, &book, &[0], 5);
    check_award(&rt, &BY_ITEM, &book, &[0], 5);
    check_award(&rt, &BY_SMALLER, &book, &[0], 5);
    Ok(())
}

#[test]
fn chains(rt: HostRuntime) -> Result<(), Fail> {
    let high_middle = book(&[
        (items(&[0, 1]), 5),
        (items(&[1, 2]), 6),
        (items(&[2, 3]), 5),
    ])?;
    check_award(&rt, &BY_VALUE, &high_middle.close(), &[1], 6);
    // a bidder that lost to a winner blocks nobody
    let falling = book(&[
        (items(&[0, 1]), 7),
        (items(&[1, 2]), 6),
        (items(&[2, 3]), 5),
    ])?;
    check_award(&rt, &BY_VALUE, &falling.close(), &[0, 2], 12);
    Ok(())
}

#[test]
fn withdrawn_rows_neither_win_nor_block(rt: HostRuntime) -> Result<(), Fail> {
    let mut book = small_book()?;
    book.withdraw(0)?;
    check_choice(&rt, &BY_VALUE, &book.close(), &[0, 1, 2, 3], &[1, 2]);
    let mut book = small_book()?;
    book.withdraw(0)?;
    book.withdraw(2)?;
    check_award(&rt, &BY_VALUE, &book.close(), &[1, 3], 110);
    let mut book = small_book()?;
    for bidder in 0..4 {
        book.withdraw(bidder)?;
    }
    check_award(&rt, &BY_VALUE, &book.close(), &[], 0);
    Ok(())
}

#[test]
fn admitted_bidders_only(rt: HostRuntime) -> Result<(), Fail> {
    let book = small_book()?.close();
    check_choice(&rt, &BY_VALUE, &book, &[], &[]);
    check_choice(&rt, &BY_VALUE, &book, &[0, 1, 2, 3], &[0]);
    check_choice(&rt, &BY_VALUE, &book, &[1, 2, 3], &[1, 2]);
    check_choice(&rt, &BY_VALUE, &book, &[1, 3], &[1, 3]);
    // a number without a row is passed over
    check_choice(&rt, &BY_VALUE, &book, &[2, 63], &[2]);
    Ok(())
}

#[test]
fn sixty_four_rows(rt: HostRuntime) -> Result<(), Fail> {
    let book = single_items()?.close();
    assert_eq!(rt; award(&BY_VALUE, &book), (BidderSet::all_below(64), 448));
    assert_eq!(rt;
        BY_VALUE.choose(&book, BidderSet::all_below(63)),
        BidderSet::all_below(63)
    );
    Ok(())
}

#[test]
fn sixty_four_rows_for_one_item(rt: HostRuntime) -> Result<(), Fail> {
    let mut rising = OpenBook::new();
    let mut level = OpenBook::new();
    for value in 0..64 {
        rising.enter(Bundle::single(0), value)?;
        level.enter(Bundle::single(0), 100_000_000)?;
    }
    check_award(&rt, &BY_VALUE, &rising.close(), &[63], 63);
    check_award(&rt, &BY_ROOT, &level.close(), &[0], 100_000_000);
    Ok(())
}

#[test]
fn a_ranking_of_ones_own(rt: HostRuntime) -> Result<(), Fail> {
    let book = book(&[(items(&[0, 1, 2]), 7), (items(&[2]), 7), (items(&[0]), 6)])?.close();
    check_award(&rt, &BY_VALUE, &book, &[0], 7);
    check_award(&rt, &BY_SMALLER, &book, &[1, 2], 13);
    Ok(())
}
