//! The line of text that answers a call of the auction.
#![tactic(auto)]

ghost use Rattle.std.specs.Prelude.{◌≡◌, Some};
ghost use Rattle.answers.specs.Texts.{answer_text, of_tick, of_reading};

use book::row::{Reading, TakenBack};
use clearing::Report;
use interest::Refusal;
use stages::{Message, Reason, TickAnswer};
use std::fmt;

/// What a call of the auction is answered.
#[derive(Clone, Copy)]
pub enum AuctionAnswer {
    Made,
    Accepted { size: u32 },
    Withdrawn { contracts: u32 },
    Replaced(TakenBack),
    Pulled(TakenBack),
    Waits(Reason),
    Holds,
    Message(Message),
    Opened(Report),
    Order(Reading),
    /// There is no such row.
    Nothing,
    Refused(Refusal),
    /// No auction was made yet.
    NoAuction,
}

impl From<TickAnswer> for AuctionAnswer {
    ghost from_gives = { λ tick answer. answer ≡ of_tick tick };

    fn from(tick: TickAnswer) -> AuctionAnswer {
        match tick {
            TickAnswer::Waits(reason) => AuctionAnswer::Waits(reason),
            TickAnswer::Holds => AuctionAnswer::Holds,
            TickAnswer::Message(message) => AuctionAnswer::Message(message),
            TickAnswer::Opened(report) => AuctionAnswer::Opened(report),
        }
    }
}

impl From<Option<Reading>> for AuctionAnswer {
    ghost from_gives = { λ reading answer. answer ≡ of_reading reading };

    fn from(reading: Option<Reading>) -> AuctionAnswer {
        reading.map_or(AuctionAnswer::Nothing, AuctionAnswer::Order)
    }
}

impl fmt::Display for AuctionAnswer {
    ghost output = { λ a. Some (answer_text a) };

    fn fmt<W: fmt::Write>(&self, f: &mut fmt::Formatter<W>) -> fmt::Result {
        match *self {
            AuctionAnswer::Made => write!(f, "made"),
            AuctionAnswer::Accepted { size } => write!(f, "accepted {size}"),
            AuctionAnswer::Withdrawn { contracts } => write!(f, "withdrawn {contracts}"),
            AuctionAnswer::Replaced(TakenBack { bids, offers }) => write!(
                f,
                "replaced {bids} {offers}"
            ),
            AuctionAnswer::Pulled(TakenBack { bids, offers }) => write!(
                f,
                "pulled {bids} {offers}"
            ),
            AuctionAnswer::Waits(reason) => {
                let number = u8::from(reason);
                write!(f, "waits {number}")
            }
            AuctionAnswer::Holds => write!(f, "holds"),
            AuctionAnswer::Message(message) => write!(f, "{message}"),
            AuctionAnswer::Opened(report) => write!(f, "{report}"),
            AuctionAnswer::Order(reading) => write!(f, "{reading}"),
            AuctionAnswer::Nothing => write!(f, "none"),
            AuctionAnswer::Refused(refusal) => {
                let number = u8::from(refusal);
                write!(f, "refused {number}")
            }
            AuctionAnswer::NoAuction => write!(f, "no auction"),
        }
    }
}
