//! Orders, the first of a slice under an order, and rankings: orders of rows in which a greater value never loses a place.
#![tactic(auto)]

mod contenders;
mod orders;
mod rankings;
mod supplied;

pub use contenders::Contender;
pub use orders::{Order, first};
pub use rankings::Ranking;
pub use supplied::{ByItem, ByRoot, ByValue};
