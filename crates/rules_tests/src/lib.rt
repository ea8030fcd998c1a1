//! Tests of rankings, greedy awards, the best of few, layers over rules and `award`, with an order, a ranking, a bundle test, an
//! allocation rule, and code that rests on the limits of a book, written by a user of the library. What they expect is what
//! docs/RULES.md says, worked out by hand.
#![tactic(auto)]

#[cfg(test)]
mod awards;
#[cfg(test)]
mod best;
#[cfg(test)]
mod books;
#[cfg(test)]
mod layered;
#[cfg(test)]
mod limits;
mod own_limits;
mod own_order;
mod own_ranking;
mod own_rule;
mod own_test;
#[cfg(test)]
mod rankings;
