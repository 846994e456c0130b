//! The calls of the auction, the first word being the call's name. Each has a function of its own: the words after the name
//! differ in number and in kind, and one function for all would take a closure for each word.
#![tactic(auto)]

pub mod lines;

ghost use Rattle.std.specs.Prelude.{◌≡◌, map};
ghost use Rattle.calls.specs.Calls.{make_call, settings_named, enter_call, withdraw_call, quote_call, pull_call, tick_call, read_call, show_call, auction_call_of};

use book::row::{Order, Quote};
use choices::{NamedLadder, NamedRule};
use interest::Side;
use script::names::{
    class_named, close_named, is, ladder_named, limit_named, market_side, order_side, rule_named,
    time_named,
};
use script::text::number;
use stages::Settings;

/// A call of the auction.
#[derive(Clone, Copy)]
pub enum AuctionCall {
    /// The settings may be out of bounds.
    Make {
        ladder: NamedLadder,
        rule: NamedRule,
        settings: Settings,
    },
    Enter(Order),
    Withdraw {
        number: u32,
    },
    Quote {
        maker: u32,
        quote: Quote,
    },
    Pull {
        maker: u32,
    },
    Tick {
        time: u32,
        underlying: Option<u32>,
    },
    ReadOrder {
        number: u32,
    },
    ReadQuote {
        maker: u32,
        side: Side,
    },
    Show,
}

fn settings_named(words: &[&[u8]]) -> Option<Settings>
    ensures { result ≡ settings_named (map (λ x. x.now) words.now) }
{
    let [close, underlying, window, imbalance, route, extra] = words else {
        return None;
    };
    Some(Settings {
        close: close_named(close)?,
        underlying: number(underlying)?,
        window: number(window)?,
        imbalance: number(imbalance)?,
        route: number(route)?,
        extra: number(extra)?,
    })
}

fn make_call(words: &[&[u8]]) -> Option<AuctionCall>
    ensures { result ≡ make_call (map (λ x. x.now) words.now) }
{
    let [ladder, rule, settings @ ..] = words else {
        return None;
    };
    Some(AuctionCall::Make {
        ladder: ladder_named(ladder)?,
        rule: rule_named(rule)?,
        settings: settings_named(settings)?,
    })
}

fn enter_call(words: &[&[u8]]) -> Option<AuctionCall>
    ensures { result ≡ enter_call (map (λ x. x.now) words.now) }
{
    let [order, side, limit, size, class] = words else {
        return None;
    };
    Some(AuctionCall::Enter(Order {
        number: number(order)?,
        side: order_side(side)?,
        limit: limit_named(limit)?,
        size: number(size)?,
        class: class_named(class)?,
    }))
}

fn withdraw_call(words: &[&[u8]]) -> Option<AuctionCall>
    ensures { result ≡ withdraw_call (map (λ x. x.now) words.now) }
{
    let [order] = words else {
        return None;
    };
    let number = number(order)?;
    Some(AuctionCall::Withdraw { number })
}

fn quote_call(words: &[&[u8]]) -> Option<AuctionCall>
    ensures { result ≡ quote_call (map (λ x. x.now) words.now) }
{
    let [maker, bid, bid_size, offer, offer_size] = words else {
        return None;
    };
    Some(AuctionCall::Quote {
        maker: number(maker)?,
        quote: Quote {
            bid: number(bid)?,
            bid_size: number(bid_size)?,
            offer: number(offer)?,
            offer_size: number(offer_size)?,
        },
    })
}

fn pull_call(words: &[&[u8]]) -> Option<AuctionCall>
    ensures { result ≡ pull_call (map (λ x. x.now) words.now) }
{
    let [maker] = words else {
        return None;
    };
    let maker = number(maker)?;
    Some(AuctionCall::Pull { maker })
}

fn tick_call(words: &[&[u8]]) -> Option<AuctionCall>
    ensures { result ≡ tick_call (map (λ x. x.now) words.now) }
{
    let [time, underlying] = words else {
        return None;
    };
    Some(AuctionCall::Tick {
        time: number(time)?,
        underlying: time_named(underlying)?,
    })
}

fn read_call(words: &[&[u8]]) -> Option<AuctionCall>
    ensures { result ≡ read_call (map (λ x. x.now) words.now) }
{
    match words {
        [b"order", order] => {
            let number = number(order)?;
            Some(AuctionCall::ReadOrder { number })
        }
        [b"quote", maker, side] => Some(AuctionCall::ReadQuote {
            maker: number(maker)?,
            side: market_side(side)?,
        }),
        _ => None,
    }
}

fn show_call(words: &[&[u8]]) -> Option<AuctionCall>
    ensures { result ≡ show_call (map (λ x. x.now) words.now) }
{
    words.is_empty().then_some(AuctionCall::Show)
}

/// The call of the auction that the words of a line make, or none.
pub fn auction_call_of(words: &[&[u8]]) -> Option<AuctionCall>
    ensures { result ≡ auction_call_of (map (λ x. x.now) words.now) }
{
    let [name, words @ ..] = words else {
        return None;
    };
    // A `match` on so many byte strings was tried in `script::calls`; its proof did not close.
    if is(name, "make") {
        make_call(words)
    } else if is(name, "tick") {
        tick_call(words)
    } else if is(name, "read") {
        read_call(words)
    } else if is(name, "show") {
        show_call(words)
    } else if is(name, "enter") {
        enter_call(words)
    } else if is(name, "withdraw") {
        withdraw_call(words)
    } else if is(name, "quote") {
        quote_call(words)
    } else if is(name, "pull") {
        pull_call(words)
    } else {
        None
    }
}
