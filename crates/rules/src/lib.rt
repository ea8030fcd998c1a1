//! Allocation rules: from a closed book and a set of admitted bidders to the winners.
#![tactic(auto)]

mod allotment;
mod best_of_few;
mod by_ranking;
mod choices;
mod interface;
mod rounds;

pub use best_of_few::Best;
pub use by_ranking::Greedy;
pub use interface::AllocationRule;
