//! The calls that the words of a line make, the first word being the call's name. Each has a function of its own: the words
//! after the name differ in number and in kind, and one function for all would take a closure for each word.
ghost use Rattle.std.specs.Prelude.{◌≡◌, map};
ghost use Rattle.script.specs.Calls.{away_call, best_call, call_of, clearing, count_call, curve_call, depth_call, firm_call, help_call, level_named, price_call, quotes_named, range_named, row_call, rows_call, send_call};

use crate::names::{
    class_named, close_named, is, limit_named, market_side, mode_named, order_side, switch_named,
};
use crate::text::number;
use interest::{Class, Limit, Side};
use market::depth::DepthLevel;
use market::single::Entry;
use pricing::figures::Mode;
use ranges::{Quotes, Range};

/// A call of a script; `share` has a type of its own.
#[derive(Clone, Copy)]
pub enum Call {
    /// Shows an entry as the single bid or offer of a side, or none.
    Away {
        side: Side,
        entry: Option<Entry>,
    },
    Depth(DepthLevel),
    DepthClear,
    Firm {
        on: bool,
    },
    Count {
        side: Side,
        price: u32,
    },
    Best {
        side: Side,
    },
    Send {
        side: Side,
        price: u32,
        contracts: u32,
    },
    Row {
        side: Side,
        limit: Limit,
        size: u32,
        class: Class,
    },
    RowsClear,
    /// Chooses a price in a range, at a prior close if there is one.
    Price {
        mode: Mode,
        range: Range,
        close: Option<u32>,
    },
    Curve {
        mode: Mode,
        range: Range,
    },
    Ranges(Quotes),
    Valid(Quotes),
    Help,
}

// Whether the words after a name are `clear` alone.
fn is_clearing(words: &[&[u8]]) -> bool
    ensures { result ≡ clearing (map (λ x. x.now) words.now) }
{
    matches!(words, [b"clear"])
}

fn level_named(words: &[&[u8]]) -> Option<DepthLevel>
    ensures { result ≡ level_named (map (λ x. x.now) words.now) }
{
    let [side, price, size] = words else {
        return None;
    };
    Some(DepthLevel {
        side: market_side(side)?,
        price: number(price)?,
        size: number(size)?,
    })
}

fn away_call(words: &[&[u8]]) -> Option<Call>
    ensures { result ≡ away_call (map (λ x. x.now) words.now) }
{
    let level = level_named(words)?;
    let entry = (level.size != 0).then_some(Entry::from(level));
    Some(Call::Away {
        side: level.side,
        entry,
    })
}

fn depth_call(words: &[&[u8]]) -> Option<Call>
    ensures { result ≡ depth_call (map (λ x. x.now) words.now) }
{
    if is_clearing(words) {
        Some(Call::DepthClear)
    } else {
        level_named(words).map(Call::Depth)
    }
}

fn firm_call(words: &[&[u8]]) -> Option<Call>
    ensures { result ≡ firm_call (map (λ x. x.now) words.now) }
{
    let [on] = words else {
        return None;
    };
    let on = switch_named(on)?;
    Some(Call::Firm { on })
}

fn count_call(words: &[&[u8]]) -> Option<Call>
    ensures { result ≡ count_call (map (λ x. x.now) words.now) }
{
    let [side, price] = words else {
        return None;
    };
    Some(Call::Count {
        side: market_side(side)?,
        price: number(price)?,
    })
}

fn best_call(words: &[&[u8]]) -> Option<Call>
    ensures { result ≡ best_call (map (λ x. x.now) words.now) }
{
    let [side] = words else {
        return None;
    };
    let side = market_side(side)?;
    Some(Call::Best { side })
}

fn send_call(words: &[&[u8]]) -> Option<Call>
    ensures { result ≡ send_call (map (λ x. x.now) words.now) }
{
    let [side, price, contracts] = words else {
        return None;
    };
    Some(Call::Send {
        side: market_side(side)?,
        price: number(price)?,
        contracts: number(contracts)?,
    })
}

fn row_call(words: &[&[u8]]) -> Option<Call>
    ensures { result ≡ row_call (map (λ x. x.now) words.now) }
{
    let [side, limit, size, class] = words else {
        return None;
    };
    Some(Call::Row {
        side: order_side(side)?,
        limit: limit_named(limit)?,
        size: number(size)?,
        class: class_named(class)?,
    })
}

fn rows_call(words: &[&[u8]]) -> Option<Call>
    ensures { result ≡ rows_call (map (λ x. x.now) words.now) }
{
    is_clearing(words).then_some(Call::RowsClear)
}

fn range_named(low: &[u8], high: &[u8]) -> Option<Range>
    ensures { result ≡ range_named low.now high.now }
{
    Some(Range {
        low: number(low)?,
        high: number(high)?,
    })
}

fn price_call(words: &[&[u8]]) -> Option<Call>
    ensures { result ≡ price_call (map (λ x. x.now) words.now) }
{
    let [mode, low, high, close] = words else {
        return None;
    };
    Some(Call::Price {
        mode: mode_named(mode)?,
        range: range_named(low, high)?,
        close: close_named(close)?,
    })
}

fn curve_call(words: &[&[u8]]) -> Option<Call>
    ensures { result ≡ curve_call (map (λ x. x.now) words.now) }
{
    let [mode, low, high] = words else {
        return None;
    };
    Some(Call::Curve {
        mode: mode_named(mode)?,
        range: range_named(low, high)?,
    })
}

fn quotes_named(words: &[&[u8]]) -> Option<Quotes>
    ensures { result ≡ quotes_named (map (λ x. x.now) words.now) }
{
    let [bid, offer] = words else {
        return None;
    };
    Some(Quotes {
        bid: number(bid)?,
        offer: number(offer)?,
    })
}

fn help_call(words: &[&[u8]]) -> Option<Call>
    ensures { result ≡ help_call (map (λ x. x.now) words.now) }
{
    words.is_empty().then_some(Call::Help)
}

/// The call that the words of a line make, or none.
pub fn call_of(words: &[&[u8]]) -> Option<Call>
    ensures { result ≡ call_of (map (λ x. x.now) words.now) }
{
    let [name, words @ ..] = words else {
        return None;
    };
    // A `match` on byte strings was tried here; it is proved byte by byte, and the proof did not close.
    if is(name, "away") {
        away_call(words)
    } else if is(name, "depth") {
        depth_call(words)
    } else if is(name, "firm") {
        firm_call(words)
    } else if is(name, "count") {
        count_call(words)
    } else if is(name, "best") {
        best_call(words)
    } else if is(name, "send") {
        send_call(words)
    } else if is(name, "row") {
        row_call(words)
    } else if is(name, "rows") {
        rows_call(words)
    } else if is(name, "price") {
        price_call(words)
    } else if is(name, "curve") {
        curve_call(words)
    } else if is(name, "ranges") {
        quotes_named(words).map(Call::Ranges)
    } else if is(name, "valid") {
        quotes_named(words).map(Call::Valid)
    } else if is(name, "help") {
        help_call(words)
    } else {
        None
    }
}
