//! What a line of a morning tells: a call of the auction first, and else what a line of a script tells.
ghost use Rattle.std.specs.Prelude.{◌≡◌, map};
ghost use Rattle.std.specs.Option.{option_map};
ghost use Rattle.calls.specs.Lines.{morning_of, heard};

use crate::{AuctionCall, auction_call_of};
use script::lines::{Line, line_of};

/// A line of a morning.
#[derive(Drop)]
pub enum MorningLine {
    Auction(AuctionCall),
    Other(Line),
}

/// What the words of a line of a morning tell, where they are understood.
pub fn morning_line_of(words: &[&[u8]]) -> Option<MorningLine>
    ensures { option_map heard result ≡ morning_of (map (λ x. x.now) words.now) }
{
    match auction_call_of(words) {
        Some(call) => Some(MorningLine::Auction(call)),
        None => Some(MorningLine::Other(line_of(words)?)),
    }
}
