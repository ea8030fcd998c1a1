//! Tests of the sets and of the bid book. What they expect is what docs/RULES.md says, worked out by hand.
#![tactic(auto)]

#[cfg(test)]
mod calls;
#[cfg(test)]
mod closed_books;
#[cfg(test)]
mod words;
