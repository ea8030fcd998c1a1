ghost use Rattle.std.specs.Prelude.{◌≡◌, ◌*◌, ◌≤◌};
ghost use Rattle.ranking.specs.Rankings.{leads as leads_by, by_value, by_root, by_item};
ghost use Rattle.ranking.specs.RankLaws.{value_ranks, root_ranks, item_ranks};

use crate::contenders::Contender;
use crate::rankings::Ranking;

/// The greater value first.
#[derive(Clone, Copy)]
pub struct ByValue;

/// The greater value over the square root of the bundle's size first.
#[derive(Clone, Copy)]
pub struct ByRoot;

/// The greater value per item first.
#[derive(Clone, Copy)]
pub struct ByItem;

impl Ranking for ByValue {
    ghost before = { λ _. by_value };

    ghost ranks = { λ ranking. value_ranks };

    fn comes_before(&self, a: &Contender, b: &Contender) -> bool {
        leads(u64::from(a.value), u64::from(b.value), a, b)
    }
}

// A size goes to `u64` by `as`, since there is no `From<usize>` for it.
// Each body is its rule's formula: one over the measure for `ByRoot` and `ByItem` would be a helper with a `requires` on its products.
impl Ranking for ByRoot {
    ghost before = { λ _. by_root };

    ghost ranks = { λ ranking. root_ranks };

    fn comes_before(&self, a: &Contender, b: &Contender) -> bool {
        leads(
            square(a.value) * b.size as u64,
            square(b.value) * a.size as u64,
            a,
            b,
        )
    }
}

impl Ranking for ByItem {
    ghost before = { λ _. by_item };

    ghost ranks = { λ ranking. item_ranks };

    fn comes_before(&self, a: &Contender, b: &Contender) -> bool {
        leads(
            u64::from(a.value) * b.size as u64,
            u64::from(b.value) * a.size as u64,
            a,
            b,
        )
    }
}

// The two rows that `comes_before` is asked about, and what it compares of them.
/// Whether `x` is the greater, or the two are equal and `a` has the lower number.
fn leads(x: u64, y: u64, a: &Contender, b: &Contender) -> bool
    ensures { result ≡ leads_by x y a.now.number b.now.number }
{
    // Not by tuples, `(Reverse(x), a.number) < (Reverse(y), b.number)`: greedy awards of 64 rows take about twice the time with them.
    x > y || x == y && a.number < b.number
}

/// The square, which may not fit the type of `value`.
// A function, since with `pow` in place the products of squares and sizes stay unproved.
fn square(value: u32) -> u64
    ensures { result ≡ value * value }
{
    u64::from(value).pow(2)
}
