//! Routing: contracts of routable rows sent to the away market, best level first, row order within.
#![tactic(auto)]

ghost use Rattle.std.specs.Prelude.{◌≡◌, ℕ, ◌+◌, min};
ghost use Rattle.interest.specs.Sides.{opposite};
ghost use Rattle.book.specs.declared.row.Row.{Row as RowOf};
ghost use Rattle.book.specs.Ranks.{of_side, can_route, total_of, below, at_rank};
ghost use Rattle.book.specs.Books.{rows_of};
ghost use Rattle.book.specs.Rewrites.{route_row};
ghost use Rattle.levels.specs.Deals.{EachRow};
ghost use Rattle.routing.specs.Routes.{count_at, own_limit, seen_at, served, sent_below, routed_rows, route_share, own_share, Exhausted, Gives, SentFor};

use book::book::Book;
use interest::Side;
use levels::{Part, next_rank, stands_at};
use market::Market;

// The limit of a rank; market rows go at the price that reaches everything.
fn own_limit(side: Side, at: u32) -> u32
    ensures { result ≡ own_limit side at }
{
    match side {
        Side::Buy => 100_000u32.min(100_001u32.saturating_sub(at)),
        Side::Sell => 1u32.max(at),
    }
}

// Sends the routable rows of a rank at a price, in row order; answers how many contracts were taken.
// The book, the side and the market are passed one by one: a struct would hold two `&mut`, and keep no fact of its own.
fn route_level<M: Market>(book: &mut Book, side: Side, at: u32, price: u32, market: &mut M) -> u32
    ensures rows { rows_of book.new ≡ served (can_route side) route_row at (count_at (M.ShownMarket.shown market.old (opposite side)) price) (rows_of book.old) }
    ensures sent { result ≡ min (count_at (M.ShownMarket.shown market.old (opposite side)) price) (at_rank (can_route side) at (rows_of book.old)) }
    ensures market { SentFor side result (M.ShownMarket.shown market.old) (M.ShownMarket.shown market.new) }
{
    let mut sent = 0;
    // By index, since a row is written through the book before the next is read.
    for i in 0..book.rows().len() {
        let row = book.rows()[i];
        if stands_at(Part::Routable(side), &row, at) {
            let n = market.send(side.opposite(), price, row.left);
            book.route(i, n);
            sent += n;
        }
    }
    sent
}

// Sends the routable rows of a side of a rank better than `upto`, best level first, each level at the price of its rank;
// answers how many contracts were taken.
fn route<M: Market, F: Fn(u32) -> u32>(
    book: &mut Book,
    side: Side,
    price_of: F,
    upto: u32,
    market: &mut M,
) -> u32
    requires callable { F.IsAlwaysCallable price_of }
    requires prices { (price : ℕ → ℕ) × Gives (F.post price_of) upto price }
    ensures rows { (price : ℕ → ℕ) → Gives (F.post price_of) upto price → rows_of book.new ≡ routed_rows (seen_at (M.ShownMarket.shown market.old (opposite side)) price) side upto (rows_of book.old) }
    ensures sent { (price : ℕ → ℕ) → Gives (F.post price_of) upto price → result ≡ sent_below (seen_at (M.ShownMarket.shown market.old (opposite side)) price) (can_route side) (rows_of book.old) upto }
    ensures market { SentFor side result (M.ShownMarket.shown market.old) (M.ShownMarket.shown market.new) }
{
    let part = Part::Routable(side);
    let mut sent = 0;
    let mut from = 0;
    while let Some(at) = next_rank(book.rows(), part, from, upto) {
        let price = price_of(at);
        sent += route_level(book, side, at, price, market);
        from = at + 1;
    }
    sent
}

/// Sends the routable rows of a side, of a rank better than `upto`, at one price; answers how many contracts were taken.
pub fn route_at<M: Market>(
    book: &mut Book,
    side: Side,
    price: u32,
    upto: u32,
    market: &mut M,
) -> u32
    ensures rows { rows_of book.new ≡ routed_rows (λ _. count_at (M.ShownMarket.shown market.old (opposite side)) price) side upto (rows_of book.old) }
    ensures each { EachRow (can_route side) route_row upto (route_share (count_at (M.ShownMarket.shown market.old (opposite side)) price) side (rows_of book.old)) (rows_of book.old) (rows_of book.new) }
    ensures sent { result ≡ min (count_at (M.ShownMarket.shown market.old (opposite side)) price) (below (can_route side) upto (rows_of book.old)) }
    ensures total { total_of (λ (x : RowOf). x.routed) (of_side side) (rows_of book.new) ≡ total_of (λ (x : RowOf). x.routed) (of_side side) (rows_of book.old) + result }
    ensures market { SentFor side result (M.ShownMarket.shown market.old) (M.ShownMarket.shown market.new) }
{
    route(book, side, |_| price, upto, market)
}

/// Sends every routable row of a side at its own limit, market rows at any price; answers how many contracts were taken.
pub fn route_own<M: Market>(book: &mut Book, side: Side, market: &mut M) -> u32
    ensures rows { rows_of book.new ≡ routed_rows (λ k. count_at (M.ShownMarket.shown market.old (opposite side)) (own_limit side k)) side 100001 (rows_of book.old) }
    ensures each { EachRow (can_route side) route_row 100001 (own_share (λ k. count_at (M.ShownMarket.shown market.old (opposite side)) (own_limit side k)) side (rows_of book.old)) (rows_of book.old) (rows_of book.new) }
    ensures spent { Exhausted (λ k. count_at (M.ShownMarket.shown market.old (opposite side)) (own_limit side k)) side result (rows_of book.old) (rows_of book.new) }
    ensures total { total_of (λ (x : RowOf). x.routed) (of_side side) (rows_of book.new) ≡ total_of (λ (x : RowOf). x.routed) (of_side side) (rows_of book.old) + result }
    ensures market { SentFor side result (M.ShownMarket.shown market.old) (M.ShownMarket.shown market.new) }
{
    route(book, side, |at| own_limit(side, at), 100_001, market)
}
