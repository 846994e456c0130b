//! Where an auction stands, what a tick decides, and what it answers.
ghost use Rattle.std.specs.Prelude.{◌≡◌};
ghost use Rattle.stages.specs.Stages.{is_open, due};

use crate::messages::Message;
use crate::waits::Reason;
use clearing::{Opening, Report};

/// Waiting for the series to be ready; gathering after message 1, routing after message 2, extra after each later one, all
/// with a deadline and the extra messages left; or open. A struct for those two would be one more name at each use.
#[derive(Clone, Copy, PartialEq, Eq, Debug)]
pub enum Stage {
    Waiting,
    Gathering { deadline: u64, left: u32 },
    Routing { deadline: u64, left: u32 },
    Extra { deadline: u64, left: u32 },
    Open,
}

impl Stage {
    /// Whether the series is open.
    pub fn is_open(self) -> bool
        ensures { result ≡ is_open self }
    {
        self == Stage::Open
    }

    /// Whether the deadline of the stage has come; a stage without one has none that could.
    pub fn is_due(self, time: u32) -> bool
        ensures { result ≡ due self time }
    {
        match self {
            Stage::Waiting | Stage::Open => false,
            Stage::Gathering { deadline, .. }
            | Stage::Routing { deadline, .. }
            | Stage::Extra { deadline, .. } => deadline <= u64::from(time),
        }
    }
}

/// What a tick that is not refused comes to.
#[derive(Clone, Copy)]
pub enum Decision {
    Wait(Reason),
    Hold,
    Tell(Message),
    Open(Opening),
}

/// What a tick answers.
#[derive(Clone, Copy)]
pub enum TickAnswer {
    Waits(Reason),
    Holds,
    Message(Message),
    Opened(Report),
}
