//! Sets of up to 64 items and of up to 64 bidders: two types, so that neither is taken for the other.
#![tactic(auto)]

mod bidders;
mod bits;
mod items;

pub use bidders::BidderSet;
pub use items::Bundle;
