//! Clearing: what an opening does to the book and to the away market.
#![tactic(auto)]

pub mod carry;
pub mod opening;
mod price;
mod steps;
mod tally;

pub use carry::carry_out;
pub use opening::{Kind, Opening, Report, SideReport};
