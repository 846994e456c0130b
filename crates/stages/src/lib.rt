//! The stages of an opening auction: its settings, the reasons to wait, and what the rules find when a tick comes.
#![tactic(auto)]

pub mod decisions;
pub mod messages;
pub mod openings;
pub mod plain;
pub mod settings;
pub mod stage;
pub mod waits;

pub use messages::Message;
pub use settings::Settings;
pub use stage::{Decision, Stage, TickAnswer};
pub use waits::{Moment, Reason};
