use crate::books::{
    BY_ITEM, BY_ROOT, BY_VALUE, better, book, check_award, check_choice, filtered, items,
    single_items, small_book,
};
use crate::own_rule::FirstCome;
use crate::own_test::EvenSize;
use book::{OpenBook, Refusal};
use layers::{BundleTest, Fit, Hold};
use sets::Bundle;
use std::process::Abort;
use std::test::Fail;

fn check_passes<T: BundleTest>(rt: &impl Abort, test: &T, cases: &[(Bundle, bool)]) {
    for &(bundle, passes) in cases {
        assert_eq!(rt; test.passes(bundle), passes);
    }
}

#[test]
fn arguments(rt: HostRuntime) {
    let refused = Some(Refusal::ArgumentOutOfRange);
    for (most, refusal) in [(0, refused), (1, None), (64, None), (65, refused)] {
        assert_eq!(rt; Fit::new(most).err(), refusal);
    }
    for (item, refusal) in [(0, None), (63, None), (64, refused)] {
        assert_eq!(rt; Hold::new(item).err(), refusal);
    }
    assert_eq!(rt; u8::from(Refusal::ArgumentOutOfRange), 16);
}

#[test]
fn bundles_of_few_items(rt: HostRuntime) -> Result<(), Fail> {
    let sizes = [
        (Bundle::empty(), true),
        (items(&[63]), true),
        (items(&[0, 63]), true),
        (items(&[0, 1, 63]), false),
    ];
    check_passes(&rt, &Fit::new(2)?, &sizes);
    check_passes(&rt, &Fit::new(64)?, &[(Bundle::all_below(64), true)]);
    check_passes(&rt, &Fit::new(63)?, &[(Bundle::all_below(64), false)]);
    Ok(())
}

#[test]
fn bundles_without_an_item(rt: HostRuntime) -> Result<(), Fail> {
    let cases = [
        (Bundle::empty(), true),
        (items(&[3]), false),
        (items(&[2, 4]), true),
        (items(&[0, 3, 63]), false),
    ];
    check_passes(&rt, &Hold::new(3)?, &cases);
    let all = Bundle::all_below(64);
    check_passes(
        &rt,
        &Hold::new(63)?,
        &[(all, false), (all.without(63), true)],
    );
    Ok(())
}

#[test]
fn bundles_of_an_even_size(rt: HostRuntime) {
    let cases = [
        (Bundle::empty(), true),
        (items(&[2]), false),
        (items(&[1, 3]), true),
        (items(&[0, 2, 4]), false),
        (Bundle::all_below(64), true),
    ];
    check_passes(&rt, &EvenSize, &cases);
}

#[test]
fn one_filter(rt: HostRuntime) -> Result<(), Fail> {
    let book = small_book()?.close();
    // bidder 0 would win the award, so that striking it from the winners would leave nobody
    check_award(&rt, &filtered(BY_VALUE, Fit::new(2)?), &book, &[1, 2], 130);
    check_award(&rt, &filtered(BY_VALUE, Fit::new(1)?), &book, &[3], 40);
    check_award(&rt, &filtered(BY_VALUE, Hold::new(3)?), &book, &[1], 70);
    check_award(&rt, &filtered(BY_ITEM, Hold::new(0)?), &book, &[3], 40);
    check_award(&rt, &filtered(BY_VALUE, EvenSize), &book, &[0], 100);
    check_award(&rt, &filtered(BY_ITEM, EvenSize), &book, &[1, 2], 130);
    Ok(())
}

/// The small book by value per item, with one filter over the other, in both orders.
fn check_stacked<S: BundleTest + Copy, T: BundleTest + Copy>(
    rt: &impl Abort,
    a: S,
    b: T,
    winners: &[usize],
    welfare: u64,
) -> Result<(), Fail> {
    let book = small_book()?.close();
    let a_inside = filtered(filtered(BY_ITEM, a), b);
    let b_inside = filtered(filtered(BY_ITEM, b), a);
    check_award(rt, &a_inside, &book, winners, welfare);
    check_award(rt, &b_inside, &book, winners, welfare);
    Ok(())
}

#[test]
fn stacked_filters(rt: HostRuntime) -> Result<(), Fail> {
    check_stacked(&rt, Fit::new(2)?, Hold::new(3)?, &[1], 70)?;
    check_stacked(&rt, EvenSize, Hold::new(0)?, &[2], 60)?;
    // each leaves somebody, and both together nobody
    check_stacked(&rt, Fit::new(1)?, Hold::new(3)?, &[], 0)
}

#[test]
fn greater_welfare_wins_in_both_orders(rt: HostRuntime) -> Result<(), Fail> {
    let book = small_book()?.close();
    let small = filtered(BY_VALUE, Fit::new(2)?);
    check_award(&rt, &better(BY_VALUE, small), &book, &[1, 2], 130);
    check_award(&rt, &better(small, BY_VALUE), &book, &[1, 2], 130);
    Ok(())
}

#[test]
fn equal_welfare_goes_to_the_first_rule(rt: HostRuntime) -> Result<(), Fail> {
    let book = book(&[(items(&[0, 1]), 50), (items(&[0]), 30), (items(&[1]), 20)])?.close();
    let small = filtered(BY_VALUE, Fit::new(1)?);
    check_award(&rt, &better(BY_VALUE, small), &book, &[0], 50);
    check_award(&rt, &better(small, BY_VALUE), &book, &[1, 2], 50);
    let disjoint = single_items()?.close();
    let first_only = filtered(FirstCome, Hold::new(1)?);
    let second_only = filtered(FirstCome, Hold::new(0)?);
    check_award(&rt, &better(first_only, second_only), &disjoint, &[0], 7);
    check_award(&rt, &better(second_only, first_only), &disjoint, &[1], 7);
    Ok(())
}

#[test]
fn admitted_numbers_without_a_row(rt: HostRuntime) -> Result<(), Fail> {
    let book = small_book()?.close();
    let small = filtered(BY_VALUE, Fit::new(2)?);
    let all_or_small = better(BY_VALUE, small);
    check_choice(&rt, &small, &book, &[0, 2, 63], &[2]);
    check_choice(&rt, &all_or_small, &book, &[0, 1, 3, 63], &[1, 3]);
    check_choice(&rt, &all_or_small, &book, &[4, 63], &[]);
    Ok(())
}

#[test]
fn first_come(rt: HostRuntime) -> Result<(), Fail> {
    let book = small_book()?.close();
    check_award(&rt, &FirstCome, &book, &[0], 100);
    check_choice(&rt, &FirstCome, &book, &[2, 3], &[2]);
    check_choice(&rt, &FirstCome, &book, &[], &[]);
    check_choice(&rt, &FirstCome, &book, &[4, 63], &[]);
    check_award(&rt, &FirstCome, &OpenBook::new().close(), &[], 0);
    let mut last_stands = single_items()?;
    for bidder in 0..63 {
        last_stands.withdraw(bidder)?;
    }
    check_award(&rt, &FirstCome, &last_stands.close(), &[63], 7);
    Ok(())
}

// `award` takes only a rule that keeps the laws. That it takes these shows that they are lawful, with no proof of their own:
// the laws of a layer follow from those of its parts.
#[test]
fn layers_over_layers(rt: HostRuntime) -> Result<(), Fail> {
    let small = small_book()?.close();
    let pairs_or_first = better(filtered(BY_ROOT, Fit::new(2)?), FirstCome);
    check_award(&rt, &pairs_or_first, &small, &[1, 2], 130);
    let singles_or_first = better(filtered(BY_ROOT, Fit::new(1)?), FirstCome);
    check_award(&rt, &singles_or_first, &small, &[0], 100);
    // of bidders 2 and 3, bidder 3 at 40 or bidder 2 at 60
    let held = filtered(singles_or_first, Hold::new(0)?);
    check_award(&rt, &held, &small, &[2], 60);
    Ok(())
}

#[test]
fn first_come_of_even_size(rt: HostRuntime) -> Result<(), Fail> {
    let rule = filtered(FirstCome, EvenSize);
    check_award(&rt, &rule, &small_book()?.close(), &[0], 100);
    let odd_first = book(&[(items(&[0]), 9), (items(&[0, 1]), 5), (items(&[2, 3]), 8)])?;
    check_award(&rt, &rule, &odd_first.close(), &[1], 5);
    Ok(())
}
