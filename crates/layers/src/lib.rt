//! Layers over any allocation rule: the better of two rules, and a rule that is shown only the bidders whose bundle passes a test.
#![tactic(auto)]

mod better_of_two;
mod bundle_tests;
mod filters;

pub use better_of_two::Better;
pub use bundle_tests::{BundleTest, Fit, Hold};
pub use filters::Filtered;
