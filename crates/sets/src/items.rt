ghost use Rattle.std.specs.Prelude.{◌≡◌, Decides, MatchOption};
ghost use Rattle.sets.specs.Members.{Has, NoMember, Single, AllBelow, Adds, Drops, Joins, Within, Lowest, size, Meet, LowestCommon};

use crate::bits;

/// A set of items; the default is the empty one.
#[derive(Clone, Copy, PartialEq, Eq, Debug, Default)]
pub struct Bundle {
    word: u64,
}

// No model: a clause sees the field, and with it that the word is below 2 ^ 64, which a model as a number would hide.
// Items and bidders are two structs with operations of their own, by a rule of the project; what they share stands once, in `bits`.
impl Bundle {
    /// The word whose bit i says whether item i is a member.
    pub fn word(self) -> u64
        ensures { result ≡ self.word }
    {
        self.word
    }

    pub fn empty() -> Bundle
        ensures { NoMember result.word }
    {
        Bundle { word: 0 }
    }

    /// The set of one item.
    pub fn single(item: usize) -> Bundle
        ensures { Single item result.word }
    {
        Bundle {
            word: bits::single(item),
        }
    }

    /// Every item below `bound`.
    pub fn all_below(bound: usize) -> Bundle
        ensures { AllBelow bound result.word }
    {
        Bundle {
            word: bits::all_below(bound),
        }
    }

    pub fn has(self, item: usize) -> bool
        ensures { Decides result (Has self.word item) }
    {
        bits::has(self.word, item)
    }

    /// This set and the item.
    pub fn with(self, item: usize) -> Bundle
        ensures { Adds self.word item result.word }
    {
        Bundle {
            word: bits::with(self.word, item),
        }
    }

    /// This set but for the item.
    pub fn without(self, item: usize) -> Bundle
        ensures { Drops self.word item result.word }
    {
        Bundle {
            word: bits::without(self.word, item),
        }
    }

    /// This set and the other.
    pub fn union(self, other: Bundle) -> Bundle
        ensures { Joins self.word other.word result.word }
    {
        Bundle {
            word: bits::join(self.word, other.word),
        }
    }

    pub fn is_empty(self) -> bool
        ensures { Decides result (NoMember self.word) }
    {
        bits::is_empty(self.word)
    }

    /// The number of items.
    pub fn len(self) -> usize
        ensures { result ≡ size self.word }
    {
        bits::len(self.word)
    }

    /// Whether every item of the set is below `bound`.
    pub fn is_within(self, bound: usize) -> bool
        ensures { Decides result (Within bound self.word) }
    {
        bits::is_within(self.word, bound)
    }

    pub fn lowest(self) -> Option<usize>
        ensures { MatchOption result (NoMember self.word) (Lowest self.word) }
    {
        bits::lowest(self.word)
    }

    /// Whether some item is in both.
    pub fn shares(self, other: Bundle) -> bool
        ensures { Decides result (Meet self.word other.word) }
    {
        bits::meet(self.word, other.word)
    }

    /// The lowest item that is in both.
    pub fn lowest_shared(self, other: Bundle) -> Option<usize>
        ensures { MatchOption result (Meet self.word other.word → ⊥) (LowestCommon self.word other.word) }
    {
        bits::lowest_common(self.word, other.word)
    }
}
