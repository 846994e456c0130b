//! Messages to the members while an auction looks for its price.
ghost use Rattle.std.specs.Prelude.{◌≡◌, Some};
ghost use Rattle.stages.specs.Messages.{message_of, message_text};

use pricing::figures::Unmatched;
use pricing::search::Choice;
use std::fmt;

/// The number of a message, and the price, its volume and what it leaves unmatched; without a price there is nothing of either.
#[derive(Clone, Copy, PartialEq, Eq, Debug)]
pub struct Message {
    pub number: u64,
    pub price: Option<u32>,
    pub volume: u32,
    pub unmatched: Unmatched,
}

/// The message of that number on a choice.
pub fn message_on(number: u64, choice: Option<Choice>) -> Message
    ensures { result ≡ message_of number choice }
{
    Message {
        number,
        price: choice.map(|choice| choice.price),
        volume: choice.map_or(0, |choice| choice.volume),
        unmatched: choice.map_or(Unmatched::Nothing, |choice| choice.unmatched),
    }
}

impl fmt::Display for Message {
    ghost output = { λ m. Some (message_text m) };

    fn fmt<W: fmt::Write>(&self, f: &mut fmt::Formatter<W>) -> fmt::Result {
        let number = self.number;
        let side = self.unmatched.side().map_or(0, u8::from);
        let volume = self.volume;
        write!(f, "message {number} side {side} volume {volume}")?;
        let imbalance = self.unmatched.contracts();
        let price = self.price.unwrap_or(0);
        write!(f, " imbalance {imbalance} price {price}")
    }
}
