//! The steps of an opening, each for both sides.
ghost use Rattle.std.specs.Prelude.{◌≡◌, ℕ};
ghost use Rattle.interest.specs.declared.Side.{Side as SideOf};
ghost use Rattle.book.specs.Books.{rows_of};
ghost use Rattle.clearing.specs.Openings.{AnswersBySide, sent_at, filled_at, sent_own, after_price, executed, CountsLeft, told_price};

use crate::opening::Kind;
use crate::price::Price;
use book::book::Book;
use filling::fill;
use interest::Side;
use market::Market;
use routing::{route_at, route_own};
use sharing::SharingRule;

// Sends the routable rows that take the price, each side's at its own.
fn send_at<M: Market, F: Fn(Side) -> u32>(book: &mut Book, price: Price, ask: F, market: &mut M)
    requires callable { F.IsAlwaysCallable ask }
    requires prices { (asked : SideOf → ℕ) × AnswersBySide (F.post ask) asked }
    ensures rows { (asked : SideOf → ℕ) → AnswersBySide (F.post ask) asked → rows_of book.new ≡ sent_at (M.ShownMarket.shown market.old) asked price.cents (rows_of book.old) }
    ensures counts { CountsLeft (M.ShownMarket.shown market.old) (M.ShownMarket.shown market.new) (rows_of book.old) (rows_of book.new) }
{
    let buys_at = ask(Side::Buy);
    let _buys = route_at(book, Side::Buy, buys_at, price.ranks(Side::Buy), market);
    let sells_at = ask(Side::Sell);
    let _sells = route_at(book, Side::Sell, sells_at, price.ranks(Side::Sell), market);
}

// Fills the volume on each side, among the rows that take the price.
fn fill_at<R: SharingRule>(book: &mut Book, price: Price, volume: u32, rule: &R)
    ensures { rows_of book.new ≡ filled_at (R.SharingRule.shares rule.now) price.cents volume (rows_of book.old) }
{
    fill(book, Side::Buy, price.ranks(Side::Buy), volume, rule);
    fill(book, Side::Sell, price.ranks(Side::Sell), volume, rule);
}

// Takes all better prices, fills the volume, and sends what can still be sent at the price.
fn route_and_fill<R: SharingRule, M: Market>(
    book: &mut Book,
    price: Price,
    volume: u32,
    rule: &R,
    market: &mut M,
)
    ensures rows { rows_of book.new ≡ after_price (R.SharingRule.shares rule.now) (M.ShownMarket.shown market.old) price.cents volume (rows_of book.old) }
    ensures counts { CountsLeft (M.ShownMarket.shown market.old) (M.ShownMarket.shown market.new) (rows_of book.old) (rows_of book.new) }
{
    send_at(book, price, |side| price.better(side), market);
    fill_at(book, price, volume, rule);
    send_at(book, price, |_| price.cents, market);
}

// Sends every routable row at its own limit.
fn send_own<M: Market>(book: &mut Book, market: &mut M)
    ensures rows { rows_of book.new ≡ sent_own (M.ShownMarket.shown market.old) (rows_of book.old) }
    ensures counts { CountsLeft (M.ShownMarket.shown market.old) (M.ShownMarket.shown market.new) (rows_of book.old) (rows_of book.new) }
{
    let _buys = route_own(book, Side::Buy, market);
    let _sells = route_own(book, Side::Sell, market);
}

/// Routes and fills as the kind of opening says, at a price or without one.
pub(crate) fn execute<R: SharingRule, M: Market>(
    book: &mut Book,
    kind: Kind,
    price: Option<Price>,
    volume: u32,
    rule: &R,
    market: &mut M,
)
    ensures rows { rows_of book.new ≡ executed (R.SharingRule.shares rule.now) (M.ShownMarket.shown market.old) kind (told_price price) volume (rows_of book.old) }
    ensures counts { CountsLeft (M.ShownMarket.shown market.old) (M.ShownMarket.shown market.new) (rows_of book.old) (rows_of book.new) }
{
    match price {
        Some(p) if kind.routes() => route_and_fill(book, p, volume, rule, market),
        Some(p) => fill_at(book, p, volume, rule),
        None if kind.is_forced() => send_own(book, market),
        None => {}
    }
}
