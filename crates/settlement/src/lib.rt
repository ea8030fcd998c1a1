//! Who wins a round.
#![tactic(auto)]

mod awards;

pub use awards::award;
