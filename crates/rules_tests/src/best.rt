use crate::books::{
    BY_ROOT, BY_VALUE, better, book, check_award, check_choice, filtered, items, single_items,
    small_book,
};
use book::{ClosedBook, OpenBook, Refusal};
use layers::Fit;
use rules::Best;
use sets::Bundle;
use std::process::Abort;
use std::test::Fail;

/// The winners and their welfare for k = 1, 2 and 3.
type Awards<'a> = [(&'a [usize], u64); 3];

fn check_best(rt: &impl Abort, book: &ClosedBook, awards: &Awards<'_>) -> Result<(), Fail> {
    for (k, &(winners, welfare)) in (1..=3).zip(awards) {
        check_award(rt, &Best::new(k)?, book, winners, welfare);
    }
    Ok(())
}

#[test]
fn sizes(rt: HostRuntime) {
    let refused = Some(Refusal::ArgumentOutOfRange);
    for (most, refusal) in [(0, refused), (1, None), (3, None), (4, refused)] {
        assert_eq!(rt; Best::new(most).err(), refusal);
    }
}

#[test]
fn best_of_the_small_book(rt: HostRuntime) -> Result<(), Fail> {
    let book = small_book()?.close();
    check_best(&rt, &book, &[(&[0], 100), (&[1, 2], 130), (&[1, 2], 130)])
}

#[test]
fn value_zero_wins_nothing(rt: HostRuntime) -> Result<(), Fail> {
    let alone = book(&[(items(&[63]), 0)])?.close();
    check_best(&rt, &alone, &[(&[], 0), (&[], 0), (&[], 0)])?;
    let beside = book(&[(items(&[0]), 0), (items(&[1]), 5), (items(&[2]), 0)])?.close();
    check_best(&rt, &beside, &[(&[1], 5), (&[1], 5), (&[1], 5)])
}

#[test]
fn ties_go_to_the_lowest_word(rt: HostRuntime) -> Result<(), Fail> {
    let level = single_items()?.close();
    check_best(&rt, &level, &[(&[0], 7), (&[0, 1], 14), (&[0, 1, 2], 21)])?;
    // word 1 for the one, word 6 for the two
    let one_first = book(&[(items(&[0, 1]), 10), (items(&[0]), 4), (items(&[1]), 6)])?.close();
    check_best(&rt, &one_first, &[(&[0], 10), (&[0], 10), (&[0], 10)])?;
    // word 3 for the two, word 4 for the one
    let two_first = book(&[(items(&[0]), 4), (items(&[1]), 6), (items(&[0, 1]), 10)])?.close();
    check_best(&rt, &two_first, &[(&[2], 10), (&[0, 1], 10), (&[0, 1], 10)])?;
    // word 7 for the three, word 8 for the one
    let three_first = book(&[
        (items(&[0]), 3),
        (items(&[1]), 3),
        (items(&[2]), 4),
        (items(&[0, 1, 2]), 10),
    ])?;
    check_best(
        &rt,
        &three_first.close(),
        &[(&[3], 10), (&[3], 10), (&[0, 1, 2], 10)],
    )
}

#[test]
fn fewer_bidders_than_allowed(rt: HostRuntime) -> Result<(), Fail> {
    check_best(
        &rt,
        &OpenBook::new().close(),
        &[(&[], 0), (&[], 0), (&[], 0)],
    )?;
    let two = book(&[(items(&[0]), 4), (items(&[1]), 6)])?.close();
    check_best(&rt, &two, &[(&[1], 6), (&[0, 1], 10), (&[0, 1], 10)])
}

#[test]
fn only_those_who_take_part(rt: HostRuntime) -> Result<(), Fail> {
    let mut book = small_book()?;
    book.withdraw(1)?;
    check_best(&rt, &book.close(), &[(&[0], 100), (&[0], 100), (&[0], 100)])?;
    let book = small_book()?.close();
    let rule = Best::new(2)?;
    check_choice(&rt, &rule, &book, &[], &[]);
    check_choice(&rt, &rule, &book, &[1, 3], &[1, 3]);
    check_choice(&rt, &rule, &book, &[2, 3, 63], &[2]);
    Ok(())
}

#[test]
fn sixty_four_bidders(rt: HostRuntime) -> Result<(), Fail> {
    let mut rising = OpenBook::new();
    let mut clashing = OpenBook::new();
    let mut greatest = OpenBook::new();
    for (bidder, value) in (0..64).zip(0..64) {
        rising.enter(Bundle::single(bidder), value)?;
        clashing.enter(Bundle::single(0), value)?;
        greatest.enter(Bundle::single(bidder), 100_000_000)?;
    }
    check_best(
        &rt,
        &rising.close(),
        &[(&[63], 63), (&[62, 63], 125), (&[61, 62, 63], 186)],
    )?;
    check_best(
        &rt,
        &clashing.close(),
        &[(&[63], 63), (&[63], 63), (&[63], 63)],
    )?;
    check_award(
        &rt,
        &Best::new(3)?,
        &greatest.close(),
        &[0, 1, 2],
        300_000_000,
    );
    Ok(())
}

#[test]
fn best_under_layers(rt: HostRuntime) -> Result<(), Fail> {
    let book = small_book()?.close();
    let pair = Best::new(2)?;
    check_award(&rt, &better(BY_VALUE, pair), &book, &[1, 2], 130);
    let single_by_root = filtered(BY_ROOT, Fit::new(1)?);
    check_award(&rt, &better(single_by_root, pair), &book, &[1, 2], 130);
    let small_single = filtered(Best::new(1)?, Fit::new(2)?);
    check_award(&rt, &small_single, &book, &[1], 70);
    Ok(())
}
