ghost use Rattle.std.specs.Prelude.{◌≡◌, Decides, MatchOption};
ghost use Rattle.sets.specs.Members.{Has, NoMember, Single, AllBelow, Adds, Drops, Within, Lowest, size};

use crate::bits;

/// A set of bidders, by row number.
#[derive(Clone, Copy, PartialEq, Eq, Debug)]
pub struct BidderSet {
    word: u64,
}

// No model: a clause sees the field, and with it that the word is below 2 ^ 64, which a model as a number would hide.
// Items and bidders are two structs with operations of their own, by a rule of the project; what they share stands once, in `bits`.
impl BidderSet {
    /// The word whose bit i says whether bidder i is a member.
    pub fn word(self) -> u64
        ensures { result ≡ self.word }
    {
        self.word
    }

    pub fn empty() -> BidderSet
        ensures { NoMember result.word }
    {
        BidderSet { word: 0 }
    }

    /// The set of one bidder.
    pub fn single(bidder: usize) -> BidderSet
        ensures { Single bidder result.word }
    {
        BidderSet {
            word: bits::single(bidder),
        }
    }

    /// Every bidder below `bound`.
    pub fn all_below(bound: usize) -> BidderSet
        ensures { AllBelow bound result.word }
    {
        BidderSet {
            word: bits::all_below(bound),
        }
    }

    pub fn has(self, bidder: usize) -> bool
        ensures { Decides result (Has self.word bidder) }
    {
        bits::has(self.word, bidder)
    }

    /// This set and the bidder.
    pub fn with(self, bidder: usize) -> BidderSet
        ensures { Adds self.word bidder result.word }
    {
        BidderSet {
            word: bits::with(self.word, bidder),
        }
    }

    /// This set but for the bidder.
    pub fn without(self, bidder: usize) -> BidderSet
        ensures { Drops self.word bidder result.word }
    {
        BidderSet {
            word: bits::without(self.word, bidder),
        }
    }

    pub fn is_empty(self) -> bool
        ensures { Decides result (NoMember self.word) }
    {
        bits::is_empty(self.word)
    }

    /// The number of bidders.
    pub fn len(self) -> usize
        ensures { result ≡ size self.word }
    {
        bits::len(self.word)
    }

    /// Whether every bidder of the set is below `bound`.
    pub fn is_within(self, bound: usize) -> bool
        ensures { Decides result (Within bound self.word) }
    {
        bits::is_within(self.word, bound)
    }

    pub fn lowest(self) -> Option<usize>
        ensures { MatchOption result (NoMember self.word) (Lowest self.word) }
    {
        bits::lowest(self.word)
    }
}
