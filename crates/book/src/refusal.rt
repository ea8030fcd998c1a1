ghost use Rattle.std.specs.Prelude.{◌≡◌};
ghost use Rattle.book.specs.Refusals.{number_of};

/// Why a call is refused, and the number by which the refusal is reported.
#[derive(Clone, Copy, PartialEq, Eq, Debug)]
pub enum Refusal {
    ItemCountOutOfRange = 1,
    SizeAfterEntry = 2,
    BookFull = 3,
    EmptyBundle = 4,
    ItemOutOfRange = 5,
    ValueAboveLimit = 6,
    NoSuchBidder = 7,
    BidWithdrawn = 8,
    ArgumentOutOfRange = 16,
}

impl From<Refusal> for u8 {
    ghost from_gives = { λ refusal number. number ≡ number_of refusal };

    /// The number by which a refusal is reported.
    fn from(refusal: Refusal) -> u8 {
        refusal as u8
    }
}
