use crate::own_order::GreaterFirst;
use crate::own_ranking::SmallerFirst;
use ranking::{ByItem, ByRoot, ByValue, Contender, Order, Ranking, first};
use std::process::Abort;
use std::test::Fail;

const MOST: u32 = 100_000_000;

/// Which of two rows comes first, whatever their numbers; `Tie` if the lower number does.
#[derive(Clone, Copy)]
enum Lead {
    A,
    B,
    Tie,
}

/// Value and size of row a, of row b, and which of them leads.
type Case = (u32, usize, u32, usize, Lead);

fn row(value: u32, size: usize, number: usize) -> Result<Contender, Fail> {
    if value > MOST || size < 1 || size > 64 {
        return Err(Fail::new("no such row"));
    }
    Ok(Contender {
        value,
        size,
        number,
    })
}

fn check_cases<R: Ranking>(rt: &impl Abort, ranking: &R, cases: &[Case]) -> Result<(), Fail> {
    for &(value_a, size_a, value_b, size_b, lead) in cases {
        for (number_a, number_b) in [(0, 63), (63, 0)] {
            let a = row(value_a, size_a, number_a)?;
            let b = row(value_b, size_b, number_b)?;
            let a_first = match lead {
                Lead::A => true,
                Lead::B => false,
                Lead::Tie => number_a < number_b,
            };
            assert_eq!(rt; ranking.comes_before(&a, &b), a_first);
            assert_eq!(rt; ranking.comes_before(&b, &a), !a_first);
            assert!(rt; !ranking.comes_before(&a, &a));
        }
    }
    Ok(())
}

#[test]
fn by_value(rt: HostRuntime) -> Result<(), Fail> {
    let cases = [
        (5, 1, 4, 1, Lead::A),
        (5, 64, 4, 1, Lead::A),
        (5, 1, 5, 64, Lead::Tie),
        (0, 1, 0, 2, Lead::Tie),
        (0, 1, 1, 1, Lead::B),
        (MOST, 64, MOST - 1, 1, Lead::A),
    ];
    check_cases(&rt, &ByValue, &cases)
}

#[test]
fn by_root(rt: HostRuntime) -> Result<(), Fail> {
    let cases = [
        // 99² × 2 = 19,602, 98² × 2 = 19,208 and 70² × 4 = 19,600
        (99, 4, 70, 2, Lead::A),
        (98, 4, 70, 2, Lead::B),
        // 7² × 9 = 21² × 1
        (7, 1, 21, 9, Lead::Tie),
        (7, 1, 22, 9, Lead::B),
        (8, 1, 21, 9, Lead::A),
        (0, 1, 0, 64, Lead::Tie),
        // the greatest products: 100,000,000² × 64, and 100,000,000² × 1 = 12,500,000² × 64
        (MOST, 64, MOST, 64, Lead::Tie),
        (MOST, 1, MOST, 64, Lead::A),
        (MOST, 64, 12_500_000, 1, Lead::Tie),
        (MOST, 64, 12_500_001, 1, Lead::B),
        (MOST, 64, 12_499_999, 1, Lead::A),
    ];
    check_cases(&rt, &ByRoot, &cases)
}

#[test]
fn by_item(rt: HostRuntime) -> Result<(), Fail> {
    let cases = [
        (70, 2, 100, 4, Lead::A),
        (50, 2, 100, 4, Lead::Tie),
        (49, 2, 100, 4, Lead::B),
        // 1 × 64 and 21 × 3
        (1, 3, 21, 64, Lead::A),
        (0, 1, 0, 64, Lead::Tie),
        (MOST, 64, 1_562_500, 1, Lead::Tie),
        (MOST, 64, 1_562_501, 1, Lead::B),
    ];
    check_cases(&rt, &ByItem, &cases)
}

#[test]
fn by_a_ranking_of_ones_own(rt: HostRuntime) -> Result<(), Fail> {
    let cases = [
        (5, 64, 4, 1, Lead::A),
        (5, 2, 5, 3, Lead::A),
        (5, 3, 5, 3, Lead::Tie),
    ];
    check_cases(&rt, &SmallerFirst, &cases)
}

#[test]
fn first_of_rows(rt: HostRuntime) -> Result<(), Fail> {
    assert_eq!(rt; first(&ByValue, &[]), None);
    let a = row(70, 2, 1)?;
    let b = row(100, 4, 0)?;
    let c = row(70, 2, 9)?;
    assert_eq!(rt; first(&ByValue, &[a]), Some(0));
    assert_eq!(rt; first(&ByValue, &[a, b, c]), Some(1));
    assert_eq!(rt; first(&ByItem, &[c, b, a]), Some(2));
    assert_eq!(rt; first(&ByRoot, &[c, a, b]), Some(2));
    Ok(())
}

#[test]
fn first_of_numbers(rt: HostRuntime) {
    let none: [u32; 0] = [];
    assert_eq!(rt; first(&GreaterFirst, &none), None);
    assert_eq!(rt; first(&GreaterFirst, &[3, 1, 4, 1, 5, 9, 2, 6]), Some(5));
    assert!(rt; first(&GreaterFirst, &[0; 64]).is_some());
}

#[test]
fn unused_contender(rt: HostRuntime) {
    let unused = Contender::default();
    assert_eq!(rt; (unused.value, unused.size, unused.number), (0, 1, 0));
}
