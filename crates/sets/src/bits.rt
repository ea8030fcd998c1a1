//! What both kinds of set share: the members of a word. A number past 63 is a member of no set.
// Functions of plain words and places: a struct of a word would be a third kind of set.
#![tactic(auto, using(crate::proofs::Words::members))]

ghost use Rattle.std.specs.Prelude.{◌≡◌, ◌/◌, ◌<◌, Decides, MatchOption};
ghost use Rattle.sets.specs.Members.{Has, NoMember, Single, AllBelow, Adds, Drops, Joins, Meet, Within, Lowest, LowestCommon, size};

pub(crate) fn single(place: usize) -> u64
    ensures { Single place result }
{
    // `checked_shl` takes a `u32`, which not every place fits
    if place < 64 { 1 << place } else { 0 }
}

pub(crate) fn all_below(bound: usize) -> u64
    ensures { AllBelow bound result }
{
    if bound < 64 {
        (1 << bound) - 1
    } else {
        u64::MAX
    }
}

pub(crate) fn has(word: u64, place: usize) -> bool
    ensures { Decides result (Has word place) }
{
    place < 64 && (word >> place) & 1 == 1
}

pub(crate) fn with(word: u64, place: usize) -> u64
    ensures { Adds word place result }
{
    word | single(place)
}

pub(crate) fn join(a: u64, b: u64) -> u64
    ensures { Joins a b result }
{
    a | b
}

pub(crate) fn without(word: u64, place: usize) -> u64
    ensures { Drops word place result }
{
    word & !single(place)
}

// its lemma alone: among those of the file the proof search gives up here
#[tactic(auto, using(crate::proofs::Words::decides_meet))]
pub(crate) fn meet(a: u64, b: u64) -> bool
    ensures { Decides result (Meet a b) }
{
    a & b != 0
}

pub(crate) fn is_empty(word: u64) -> bool
    ensures { Decides result (NoMember word) }
{
    word == 0
}

/// Whether every member is below `bound`.
pub(crate) fn is_within(word: u64, bound: usize) -> bool
    ensures { Decides result (Within bound word) }
{
    bound >= 64 || word >> bound == 0
}

pub(crate) fn len(word: u64) -> usize
    ensures { result ≡ size word }
{
    // `as`, since there is no `From<u32>` for `usize`.
    word.count_ones() as usize
}

pub(crate) fn lowest(word: u64) -> Option<usize>
    ensures { MatchOption result (NoMember word) (Lowest word) }
{
    // `as`, since there is no `From<u32>` for `usize`.
    (word != 0).then_some(word.trailing_zeros() as usize)
}

pub(crate) fn lowest_common(a: u64, b: u64) -> Option<usize>
    ensures { MatchOption result (Meet a b → ⊥) (LowestCommon a b) }
{
    lowest(a & b)
}
