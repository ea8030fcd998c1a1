ghost use Rattle.std.specs.Prelude.{◌≡◌, ◌≤◌, [], ◌∷◌, Decides};
ghost use Rattle.sets.specs.Members.{Has, size};
ghost use Rattle.book.specs.Checks.{Makes, argument_between};
ghost use Rattle.layers.specs.Filters.{Test, fits_in, leaves_out};

use book::{Argument, Refusal};
use sets::Bundle;

/// One question: does the bundle pass?
pub trait BundleTest {
    ghost meaning: { Self → Test };

    fn passes(&self, bundle: Bundle) -> bool
        ensures { result ≡ meaning self.now bundle.word };
}

/// Passes bundles of at most so many items.
#[derive(Clone, Copy)]
pub struct Fit {
    most: Argument<1, 64>,
}

impl Fit {
    /// `most` is 1 to 64.
    // One line, as of `Hold` and of `Best`: the check of the range stands once, in `Argument`.
    pub fn new(most: usize) -> Result<Fit, Refusal>
        ensures { Makes (argument_between 1 64 most ∷ []) (λ test. test.most.number ≡ most) result }
    {
        Ok(Fit {
            most: most.try_into()?,
        })
    }
}

impl BundleTest for Fit {
    ghost meaning = { λ test. fits_in test.most.number };

    fn passes(&self, bundle: Bundle) -> bool
        ensures test { result ≡ fits_in self.now.most.number bundle.word }
        ensures says { Decides result (size bundle.word ≤ self.now.most.number) }
    {
        bundle.len() <= self.most.get()
    }
}

/// Passes bundles without one item, which is held back.
#[derive(Clone, Copy)]
pub struct Hold {
    item: Argument<0, 63>,
}

impl Hold {
    /// `item` is 0 to 63.
    // One line, as of `Fit` and of `Best`: the check of the range stands once, in `Argument`.
    pub fn new(item: usize) -> Result<Hold, Refusal>
        ensures { Makes (argument_between 0 63 item ∷ []) (λ test. test.item.number ≡ item) result }
    {
        Ok(Hold {
            item: item.try_into()?,
        })
    }
}

impl BundleTest for Hold {
    ghost meaning = { λ test. leaves_out test.item.number };

    fn passes(&self, bundle: Bundle) -> bool
        ensures test { result ≡ leaves_out self.now.item.number bundle.word }
        ensures says { Decides result (Has bundle.word self.now.item.number → ⊥) }
    {
        !bundle.has(self.item.get())
    }
}
