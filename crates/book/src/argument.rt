ghost use Rattle.std.specs.Prelude.{◌≡◌, ◌≤◌, [], ◌∷◌};
ghost use Rattle.book.specs.Checks.{Makes, argument_between};

use crate::refusal::Refusal;

/// An argument of a rule or of a test: a number from `LOW` to `HIGH`.
#[derive(Clone, Copy)]
pub struct Argument<const LOW: usize, const HIGH: usize> {
    number: usize,
    ghost range: { (LOW ≤ number) × (number ≤ HIGH) },
}

impl<const LOW: usize, const HIGH: usize> TryFrom<usize> for Argument<LOW, HIGH> {
    type Error = Refusal;

    ghost try_from_gives = { λ number made. Makes (argument_between LOW HIGH number ∷ []) (λ argument. argument.number ≡ number) made };

    fn try_from(number: usize) -> Result<Self, Refusal> {
        if number < LOW || number > HIGH {
            return Err(Refusal::ArgumentOutOfRange);
        }
        Ok(Argument { number })
    }
}

impl<const LOW: usize, const HIGH: usize> Argument<LOW, HIGH> {
    /// The number.
    pub fn get(self) -> usize
        ensures { result ≡ self.entry.number }
    {
        self.number
    }
}
