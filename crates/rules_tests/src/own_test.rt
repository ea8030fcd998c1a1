ghost use Rattle.rules_tests.specs.Own.{even_size};

use layers::BundleTest;
use sets::Bundle;

/// Passes bundles of an even number of items.
#[derive(Clone, Copy)]
pub struct EvenSize;

impl BundleTest for EvenSize {
    ghost meaning = { λ _. even_size };

    fn passes(&self, bundle: Bundle) -> bool {
        bundle.len().is_multiple_of(2)
    }
}
