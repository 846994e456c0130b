//! What a line of a script is.
ghost use Rattle.std.specs.Prelude.{◌≡◌, map};
ghost use Rattle.std.specs.Option.{option_map};
ghost use Rattle.script.specs.Lines.{line_of, told};

use crate::calls::{Call, call_of};
use crate::names::is;
use crate::share::{ShareCall, share_call};

/// A line: one that is passed over, which is empty or a comment, or a call.
#[derive(Drop)]
pub enum Line {
    Silent,
    Share(ShareCall),
    Call(Call),
}

/// What the words of a line say, where they are understood.
pub fn line_of(words: &[&[u8]]) -> Option<Line>
    ensures { option_map told result ≡ line_of (map (λ x. x.now) words.now) }
{
    match words {
        [] | [[], ..] | [[b'#', ..], ..] => Some(Line::Silent),
        [name, ..] if is(name, "share") => Some(Line::Share(share_call(words)?)),
        _ => Some(Line::Call(call_of(words)?)),
    }
}
