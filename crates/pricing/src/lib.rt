//! The price of an opening: what a price comes to, and the choice in a range, for every ladder and market.
#![tactic(auto)]

pub mod figures;
mod rungs;
pub mod scene;
pub mod search;
