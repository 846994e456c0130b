//! The openings that the rules find: plain, quick, exchange-only, routed and forced.
ghost use Rattle.std.specs.Prelude.{◌≡◌};
ghost use Rattle.book.specs.Books.{rows_of};
ghost use Rattle.pricing.specs.Scenes.{scene_of};
ghost use Rattle.stages.specs.Looks.{quotes_of, away_of, range_of, routing_choice, quoted_choice, opening_at, cleanly, exchange_opening, forced_opening, plain_opening, quick_opening, at_once};

use crate::plain::is_plain;
use book::book::Book;
use clearing::{Kind, Opening};
use interest::Side;
use ladder::Ladder;
use market::ShownMarket;
use pricing::figures::Mode;
use pricing::scene::Scene;
use pricing::search::Choice;
use ranges::{Away, BestPrices, Quotes, Range};

/// The highest bid and the lowest offer of the quotes. The bands begin at a bid of 0, so a missing bid counts as 0, and a
/// missing offer likewise.
pub fn quotes_of(book: &Book) -> Quotes
    ensures { result ≡ quotes_of (rows_of book.now) }
{
    Quotes {
        bid: book.highest_bid().unwrap_or(0),
        offer: book.lowest_offer().unwrap_or(0),
    }
}

/// The best prices that the away market shows.
pub fn away_of<M: ShownMarket>(market: &M) -> Away
    ensures { result ≡ away_of (M.ShownMarket.shown market.now) }
{
    Away {
        bid: market.best(Side::Buy),
        offer: market.best(Side::Sell),
    }
}

/// The best prices of the quotes, and of the away market.
pub fn best_prices<M: ShownMarket>(book: &Book, market: &M) -> BestPrices
    ensures quotes { result.quotes ≡ quotes_of (rows_of book.now) }
    ensures away { result.away ≡ away_of (M.ShownMarket.shown market.now) }
{
    BestPrices {
        quotes: quotes_of(book),
        away: away_of(market),
    }
}

/// The opening range.
pub fn range_of<M: ShownMarket>(book: &Book, market: &M) -> Range
    ensures { result ≡ range_of (rows_of book.now) (M.ShownMarket.shown market.now) }
{
    best_prices(book, market).opening_range()
}

/// The routing choice in the opening range.
pub fn routing_choice<L: Ladder, M: ShownMarket>(scene: &Scene<L, M>) -> Option<Choice>
    ensures { result ≡ routing_choice (scene_of L.Ladder.permitted M.ShownMarket.shown scene.now) }
{
    scene.choose(Mode::Routing, range_of(scene.book, scene.market))
}

/// The exchange-only choice from the highest bid to the lowest offer of the quotes.
pub fn quoted_choice<L: Ladder, M: ShownMarket>(scene: &Scene<L, M>) -> Option<Choice>
    ensures { result ≡ quoted_choice (scene_of L.Ladder.permitted M.ShownMarket.shown scene.now) }
{
    let quotes = quotes_of(scene.book);
    scene.choose(
        Mode::Exchange,
        Range {
            low: quotes.bid,
            high: quotes.offer,
        },
    )
}

fn opening_at(kind: Kind, range: Range, choice: Choice) -> Opening
    ensures { result ≡ opening_at kind range choice }
{
    Opening {
        kind,
        price: Some(choice.price),
        volume: choice.volume,
        range,
    }
}

/// The opening at the choice, if nothing unmatched is through it.
pub fn opening_cleanly(kind: Kind, range: Range, choice: Option<Choice>) -> Option<Opening>
    ensures { result ≡ cleanly kind range choice }
{
    choice
        .filter(|choice| choice.through == 0)
        .map(|choice| opening_at(kind, range, choice))
}

/// The opening at the exchange-only choice in the opening range.
pub fn exchange_opening<L: Ladder, M: ShownMarket>(scene: &Scene<L, M>) -> Option<Opening>
    ensures { result ≡ exchange_opening (scene_of L.Ladder.permitted M.ShownMarket.shown scene.now) }
{
    let range = range_of(scene.book, scene.market);
    opening_cleanly(Kind::Exchange, range, scene.choose(Mode::Exchange, range))
}

/// The opening that is forced, at a choice or without a price.
pub fn forced_opening(range: Range, choice: Option<Choice>) -> Opening
    ensures { result ≡ forced_opening range choice }
{
    Opening {
        kind: Kind::Forced,
        price: choice.map(|choice| choice.price),
        volume: choice.map_or(0, |choice| choice.volume),
        range,
    }
}

/// The opening at the exchange-only choice in the quick range. Where nothing unmatched is through that choice, no permitted
/// price could trade more, so there is no need to look.
fn quick_opening<L: Ladder, M: ShownMarket>(scene: &Scene<L, M>) -> Option<Opening>
    ensures { result ≡ quick_opening (scene_of L.Ladder.permitted M.ShownMarket.shown scene.now) }
{
    let range = best_prices(scene.book, scene.market).quick_range()?;
    let choice = scene.choose(Mode::Exchange, range);
    opening_cleanly(Kind::Quick, range, choice)
}

fn plain_opening() -> Opening
    ensures { result ≡ plain_opening }
{
    Opening {
        kind: Kind::Plain,
        price: None,
        volume: 0,
        range: Range { low: 0, high: 0 },
    }
}

/// The opening that needs no message, if there is one: plain, or else quick.
pub fn at_once<L: Ladder, M: ShownMarket>(scene: &Scene<L, M>) -> Option<Opening>
    ensures { result ≡ at_once (scene_of L.Ladder.permitted M.ShownMarket.shown scene.now) }
{
    if is_plain(scene) {
        Some(plain_opening())
    } else {
        quick_opening(scene)
    }
}
