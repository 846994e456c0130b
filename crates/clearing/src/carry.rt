//! An opening carried out. It asks for no memory and refuses nothing, so it cannot stop half-way.
ghost use Rattle.std.specs.Prelude.{◌≡◌};
ghost use Rattle.book.specs.Books.{rows_of};
ghost use Rattle.book.specs.Rewrites.{SameRows};
ghost use Rattle.clearing.specs.Openings.{priced_only, told_price, edges_of, rows_after, CountsLeft};
ghost use Rattle.clearing.specs.Reports.{report_of, ShowsBest};
ghost use Rattle.clearing.specs.Promises.{TradesVolume, TradesWithin, BestFirst, NothingBetter, SpentAt, SpentOwn, Quiet, RestsShort};

use crate::opening::{Kind, Opening, Report};
use crate::price::Price;
use crate::steps::execute;
use crate::tally::tally;
use book::book::Book;
use interest::{Side, TOP_PRICE};
use ladder::Ladder;
use market::Market;
use ranges::Range;
use settling::{Edges, cancel, rest};
use sharing::SharingRule;

// A price out of bounds is none.
fn priced_only(price: Option<u32>) -> Option<Price>
    ensures { told_price result ≡ priced_only price }
{
    price.and_then(Price::in_bounds)
}

// The prices beyond which contracts are cancelled.
fn edges_of(kind: Kind, price: Option<u32>, range: Range) -> Edges
    ensures { result ≡ edges_of kind price range }
{
    match price {
        Some(p) => Edges { buys: p, sells: p },
        None if kind.is_forced() => Edges {
            buys: range.high,
            sells: range.low,
        },
        None => Edges {
            buys: TOP_PRICE,
            sells: 1,
        },
    }
}

fn report(book: &Book, opening: Opening, price: Option<u32>) -> Report
    ensures { result ≡ report_of opening price (rows_of book.now) }
{
    Report {
        kind: opening.kind,
        price,
        volume: price.map_or(0, |_| opening.volume),
        range: opening.range,
        buys: tally(book, Side::Buy),
        sells: tally(book, Side::Sell),
    }
}

/// Carries an opening out: routes to better prices, fills the volume, sends at the price, cancels, and lets the rest rest.
pub fn carry_out<L: Ladder, R: SharingRule, M: Market>(
    book: &mut Book,
    ladder: &L,
    rule: &R,
    market: &mut M,
    opening: Opening,
) -> Report
    ensures rows { rows_of book.new ≡ rows_after (L.Ladder.permitted ladder.now) (R.SharingRule.shares rule.now) (M.ShownMarket.shown market.old) opening (rows_of book.old) }
    ensures counts { CountsLeft (M.ShownMarket.shown market.old) (M.ShownMarket.shown market.new) (rows_of book.old) (rows_of book.new) }
    ensures report { result ≡ report_of opening (priced_only opening.price) (rows_of book.new) }
    ensures kept { SameRows (rows_of book.old) (rows_of book.new) }
    ensures volume { TradesVolume (M.ShownMarket.shown market.old) opening (rows_of book.old) (rows_of book.new) }
    ensures limits { TradesWithin opening (rows_of book.old) (rows_of book.new) }
    ensures priority { BestFirst (rows_of book.old) (rows_of book.new) }
    ensures better { NothingBetter (M.ShownMarket.shown market.old) opening (rows_of book.old) (M.ShownMarket.shown market.new) }
    ensures spent { SpentAt opening (rows_of book.old) (rows_of book.new) (M.ShownMarket.shown market.new) }
    ensures spent_own { SpentOwn opening (rows_of book.old) (rows_of book.new) (M.ShownMarket.shown market.new) }
    ensures quiet { Quiet opening (M.ShownMarket.shown market.old) (M.ShownMarket.shown market.new) }
    ensures shows { ShowsBest result (rows_of book.new) }
    ensures short { RestsShort (rows_of book.new) (M.ShownMarket.shown market.new) }
{
    let in_bounds = priced_only(opening.price);
    execute(book, opening.kind, in_bounds, opening.volume, rule, market);
    let price = in_bounds.map(|p| p.cents);
    cancel(book, edges_of(opening.kind, price, opening.range));
    rest(book, ladder, market);
    report(book, opening, price)
}
