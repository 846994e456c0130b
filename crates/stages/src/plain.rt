//! Whether a series can open without a trade.
ghost use Rattle.std.specs.Prelude.{◌≡◌, ◌-◌, min, ◌==◌, nat_lt};
ghost use Rattle.book.specs.Books.{rows_of};
ghost use Rattle.book.specs.Ranks.{routable_at};
ghost use Rattle.pricing.specs.Scenes.{scene_of};
ghost use Rattle.stages.specs.Looks.{crossable, MostCrossing, reached_by, unquoted, plainly};

use crate::openings::best_prices;
use book::book::Book;
use interest::{Side, TOP_PRICE};
use ladder::Ladder;
use levels::{Part, next_rank};
use market::ShownMarket;
use pricing::scene::Scene;
use ranges::{BestPrices, is_quality};

/// One past the last rank that a row can have.
const RANKS: u32 = 100_001;

/// The highest price that a buy of a rank takes.
fn highest_taken(rank: u32) -> u32
    ensures { result ≡ min 100000 (100001 - rank) }
{
    TOP_PRICE.min(RANKS.saturating_sub(rank))
}

/// Whether no permitted price has both buys and sells: there is none from the best sell to the best buy. The definition is
/// what it says: the most that a permitted price has of both.
pub fn is_uncrossed<L: Ladder>(ladder: &L, book: &Book) -> bool
    ensures is { result ≡ (crossable (L.Ladder.permitted ladder.now) (rows_of book.now) == 0) }
    ensures most { MostCrossing (L.Ladder.permitted ladder.now) (rows_of book.now) (crossable (L.Ladder.permitted ladder.now) (rows_of book.now)) }
{
    let Some(buys) = next_rank(book.rows(), Part::All(Side::Buy), 0, RANKS) else {
        return true;
    };
    let Some(sells) = next_rank(book.rows(), Part::All(Side::Sell), 0, RANKS) else {
        return true;
    };
    let top = highest_taken(buys);
    ladder
        .at_or_above(sells.max(1))
        .is_none_or(|price| top < price)
}

/// Whether a routable row of a side could take a price.
fn is_routable(book: &Book, side: Side, price: u32) -> bool
    ensures { result ≡ nat_lt 0 (routable_at side price (rows_of book.now)) }
{
    let depth = book.depth_at(price);
    match side {
        Side::Buy => 0 < depth.routable_buys,
        Side::Sell => 0 < depth.routable_sells,
    }
}

/// Whether a routable row of a side could take the away price.
fn is_reached(book: &Book, side: Side, away: Option<u32>) -> bool
    ensures { result ≡ reached_by (rows_of book.now) side away }
{
    away.is_some_and(|price| is_routable(book, side, price))
}

/// Whether no bid is quoted, no away price is shown, and there is no quality market.
fn is_unquoted(best: BestPrices) -> bool
    ensures { result ≡ unquoted best.quotes best.away }
{
    let BestPrices { quotes, away } = best;
    let none_away = away.bid.is_none() && away.offer.is_none();
    quotes.bid == 0 && none_away && !is_quality(quotes)
}

/// Whether the series opens without a trade.
pub(crate) fn is_plain<L: Ladder, M: ShownMarket>(scene: &Scene<L, M>) -> bool
    ensures { result ≡ plainly (scene_of L.Ladder.permitted M.ShownMarket.shown scene.now) }
{
    let best = best_prices(scene.book, scene.market);
    let buys_reach = is_reached(scene.book, Side::Buy, best.away.offer);
    let sells_reach = is_reached(scene.book, Side::Sell, best.away.bid);
    is_uncrossed(scene.ladder, scene.book) & !(buys_reach | sells_reach) & !is_unquoted(best)
}
