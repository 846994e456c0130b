//! The table of rows of a series: its orders as accepted, then the sides of its quotes by maker.
#![tactic(auto)]

pub mod book;
mod checks;
pub mod reads;
pub mod rewrite;
pub mod row;
pub mod sums;
pub mod table;
