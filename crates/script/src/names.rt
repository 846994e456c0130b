//! The names of calls, sides, classes, ladders and rules.
ghost use Rattle.std.specs.Prelude.{◌≡◌};
ghost use Rattle.std.specs.Str.{bytes_eq};
ghost use Rattle.script.specs.Names.{looked_up, side_named, order_side_named, limit_named, class_named, rule_named, ladder_named, mode_named, switch_named, time_named, close_named};

use crate::text::number;
use choices::{NamedLadder, NamedRule};
use interest::{Class, Limit, Side};
use pricing::figures::Mode;

/// Whether a word is that name.
pub fn is(word: &[u8], name: &str) -> bool
    ensures { result ≡ bytes_eq word.now name.now }
{
    word == name.as_bytes()
}

// What a word names in a table. With a `match` on byte strings in its place the proof did not close at the longer names.
fn named<T: Copy>(word: &[u8], table: &[(&str, T)]) -> Option<T>
    ensures { result ≡ looked_up (λ line. line.0.now) (λ line. line.1) word.now table.now }
{
    for (name, value) in table {
        if is(word, name) {
            return Some(*value);
        }
    }
    None
}

/// The side of a market that `bid` or `offer` names.
pub fn market_side(word: &[u8]) -> Option<Side>
    ensures { result ≡ side_named word.now }
{
    named(word, &[("bid", Side::Buy), ("offer", Side::Sell)])
}

/// The side of an order that `buy` or `sell` names.
pub fn order_side(word: &[u8]) -> Option<Side>
    ensures { result ≡ order_side_named word.now }
{
    named(word, &[("buy", Side::Buy), ("sell", Side::Sell)])
}

/// The limit that `market` or a number names.
pub fn limit_named(word: &[u8]) -> Option<Limit>
    ensures { result ≡ limit_named word.now }
{
    if is(word, "market") {
        Some(Limit::Market)
    } else {
        number(word).map(Limit::At)
    }
}

/// The class that `routable`, `fixed` or `other` names.
pub fn class_named(word: &[u8]) -> Option<Class>
    ensures { result ≡ class_named word.now }
{
    named(
        word,
        &[
            ("routable", Class::Routable),
            ("fixed", Class::Fixed),
            ("other", Class::Other),
        ],
    )
}

/// The ladder that `cent` or `stepped` names.
pub fn ladder_named(word: &[u8]) -> Option<NamedLadder>
    ensures { result ≡ ladder_named word.now }
{
    named(
        word,
        &[
            ("cent", NamedLadder::Cent),
            ("stepped", NamedLadder::Stepped),
        ],
    )
}

/// The sharing rule that `time` or `prorata` names.
pub fn rule_named(word: &[u8]) -> Option<NamedRule>
    ensures { result ≡ rule_named word.now }
{
    named(
        word,
        &[("time", NamedRule::Time), ("prorata", NamedRule::ProRata)],
    )
}

/// The kind of opening that `exchange` or `routing` names.
pub fn mode_named(word: &[u8]) -> Option<Mode>
    ensures { result ≡ mode_named word.now }
{
    named(
        word,
        &[("exchange", Mode::Exchange), ("routing", Mode::Routing)],
    )
}

/// What `on` or `off` names.
pub fn switch_named(word: &[u8]) -> Option<bool>
    ensures { result ≡ switch_named word.now }
{
    named(word, &[("on", true), ("off", false)])
}

/// The time that a number names, or that there is none, by `none`.
pub fn time_named(word: &[u8]) -> Option<Option<u32>>
    ensures { result ≡ time_named word.now }
{
    if is(word, "none") {
        Some(None)
    } else {
        number(word).map(Some)
    }
}

/// The prior close that a number names, or that there is none, by 0.
pub fn close_named(word: &[u8]) -> Option<Option<u32>>
    ensures { result ≡ close_named word.now }
{
    let close = number(word)?;
    Some((close != 0).then_some(close))
}
