ghost use Rattle.rules_tests.specs.Own.{Greater};
ghost use Rattle.std.proofs.Common.{rules};

use ranking::Order;

/// The greater number first.
#[derive(Clone, Copy)]
pub struct GreaterFirst;

impl Order<u32> for GreaterFirst {
    ghost before = { λ _. Greater };

    ghost identity = { λ n. n };

    ghost ordered = { Prim.search rules };

    fn comes_before(&self, a: &u32, b: &u32) -> bool {
        a > b
    }
}
