//! The opening auction of a series: members enter, makers quote, and a tick at a time it finds its price and opens.
#![tactic(auto)]

pub mod auction;
mod entering;
mod making;
pub mod outlook;
mod quoting;
mod reading;
mod ticking;

pub use auction::Auction;
pub use outlook::Outlook;
