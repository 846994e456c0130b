//! Scripts: a line of text to a call, and an answer to a line of text.
#![tactic(auto)]

pub mod answers;
pub mod calls;
pub mod lines;
pub mod names;
pub mod share;
pub mod text;
