ghost use Rattle.std.specs.Prelude.{◌≡◌, true};
ghost use Rattle.ranking.specs.Rankings.{RowOrder, Ranks};
ghost use Rattle.ranking.specs.Views.{entry_of};
ghost use Rattle.ranking.specs.RankedOrderLemmas.{possible};

use crate::contenders::Contender;
use crate::orders::Order;

/// One question: does row `a` come before row `b`?
pub trait Ranking {
    ghost before: { Self → RowOrder };

    // Two rows and no struct of both: they are the question.
    fn comes_before(&self, a: &Contender, b: &Contender) -> bool
        ensures { result ≡ before self.now (entry_of a.now) (entry_of b.now) };

    ghost ranks: { (ranking : Self) → Ranks (before ranking) };
}

/// Every ranking is an order of contenders.
impl<R: Ranking> Order<Contender> for R {
    ghost before = { λ o a b. R.before o (entry_of a) (entry_of b) ≡ true };

    ghost identity = { λ c. c.number };

    ghost ordered = { λ order.
        let ranks = R.ranks order in
        record {
          irreflexive = λ a. ranks.irreflexive (entry_of a) (possible a);
          transitive = λ a b c. ranks.transitive (entry_of a) (entry_of b) (entry_of c) (possible a) (possible b) (possible c);
          total = λ a b. ranks.total (entry_of a) (entry_of b) (possible a) (possible b);
        } };

    fn comes_before(&self, a: &Contender, b: &Contender) -> bool {
        Ranking::comes_before(self, a, b)
    }
}
