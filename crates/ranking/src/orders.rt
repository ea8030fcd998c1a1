ghost use Rattle.std.specs.Prelude.{◌≡◌, ℕ, ◌<◌, length, Decides, MatchOption};
ghost use Rattle.ranking.specs.Orders.{StrictOrder, FirstOf, Earlier};

/// A strict order on values of `T`. It is a value of its own, so that one kind of record can be ordered in several ways.
pub trait Order<T> {
    ghost before: { Self → T → T → Type 0 };

    // Elements of different identity are different elements.
    ghost identity: { T → ℕ };

    // Two elements and no struct of both: they are the question.
    fn comes_before(&self, a: &T, b: &T) -> bool
        ensures { Decides result (before self.now a.now b.now) };

    ghost ordered: { (order : Self) → StrictOrder identity (before order) };
}

/// The place of an item that no other comes before; none if there is no item.
pub fn first<T, O: Order<T>>(order: &O, items: &[T]) -> Option<usize>
    ensures { MatchOption result (length items.now ≡ 0) (FirstOf (O.before order.now) items.now) }
{
    // A loop over places and no chain over `enumerate`: that carries a reference from turn to turn too, and takes up to twice the time.
    if items.is_empty() {
        return None;
    }
    let mut best = 0;
    for place in 1..items.len() {
        best = earlier(order, items, best, place);
    }
    Some(best)
}

/// Place `b` if its item comes before the one at place `a`, otherwise `a`.
fn earlier<T, O: Order<T>>(order: &O, items: &[T], a: usize, b: usize) -> usize
    requires a_in_bounds { a < length items.now }
    requires b_in_bounds { b < length items.now }
    ensures { Earlier (O.before order.now) items.now a b result }
{
    if order.comes_before(&items[b], &items[a]) {
        b
    } else {
        a
    }
}
