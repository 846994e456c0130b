//! Settling: what filling and routing leave is cancelled, or rests.
#![tactic(auto)]

ghost use Rattle.std.specs.Prelude.{◌≡◌, ◌≤◌, map};
ghost use Rattle.market.specs.Counts.{best_of};
ghost use Rattle.book.specs.Ranks.{through_price};
ghost use Rattle.book.specs.Books.{rows_of};
ghost use Rattle.settling.specs.Settles.{edge_of, cancel_through, beside, InBounds, rests_at, resting_at, place_of, rested_row};

use book::book::Book;
use book::row::Row;
use book::sums::is_through;
use interest::{Limit, Side};
use ladder::Ladder;
use market::{ShownMarket, reached};

/// The prices beyond which contracts are cancelled: buys limited above one, sells limited below the other.
#[derive(Clone, Copy)]
pub struct Edges {
    pub buys: u32,
    pub sells: u32,
}

impl Edges {
    // A match, and no map by side: callers make the value by the names of its fields.
    fn of(self, side: Side) -> u32
        ensures { result ≡ edge_of self side }
    {
        match side {
            Side::Buy => self.buys,
            Side::Sell => self.sells,
        }
    }

    fn are_passed(self, row: &Row) -> bool
        ensures { result ≡ through_price row.now.side (edge_of self row.now.side) row.now.limit }
    {
        is_through(row.side, self.of(row.side), row.limit)
    }
}

/// Cancels what is left of market rows, and of rows limited beyond the edge of their side.
pub fn cancel(book: &mut Book, edges: Edges)
    ensures { rows_of book.new ≡ map (cancel_through edges) (rows_of book.old) }
{
    // By index, since a row is written through the book before the next is read.
    for i in 0..book.rows().len() {
        let row = book.rows()[i];
        if edges.are_passed(&row) {
            book.cancel(i);
        }
    }
}

/// The prices at which a row works and is shown, as a row holds them: 0 where there is none.
#[derive(Clone, Copy)]
pub struct Resting {
    pub working: u32,
    pub shown: u32,
}

impl Resting {
    const NOWHERE: Resting = Resting {
        working: 0,
        shown: 0,
    };

    fn at(price: u32) -> Resting
        ensures { result ≡ rests_at price price }
    {
        Resting {
            working: price,
            shown: price,
        }
    }
}

// The permitted price next to an away price, short of it.
fn beside<L: Ladder>(ladder: &L, side: Side, away: u32) -> Option<u32>
    requires { away ≤ 100000 }
    ensures { result ≡ beside (L.Ladder.permitted ladder.now) side away }
{
    match side {
        Side::Buy => ladder.at_or_below(away.saturating_sub(1)),
        Side::Sell => ladder.at_or_above(away + 1),
    }
}

fn resting_at<L: Ladder>(ladder: &L, side: Side, away: Option<u32>, limit: Limit) -> Resting
    requires { InBounds away }
    ensures { result ≡ resting_at (L.Ladder.permitted ladder.now) side away limit }
{
    match (limit, away) {
        (Limit::Market, _) => Resting::NOWHERE,
        (Limit::At(price), Some(a)) if reached(side.opposite(), a, price) => Resting {
            working: a,
            shown: beside(ladder, side, a).unwrap_or(0),
        },
        (Limit::At(price), _) => Resting::at(price),
    }
}

// Where a row rests, next to the away price that it could take.
fn resting_of<L: Ladder, M: ShownMarket>(ladder: &L, market: &M, row: &Row) -> Resting
    ensures { result ≡ place_of (L.Ladder.permitted ladder.now) (λ side. best_of side (M.ShownMarket.shown market.now side)) row.now }
{
    if 0 < row.left {
        let away = market.best(row.side.opposite());
        resting_at(ladder, row.side, away, row.limit)
    } else {
        Resting::NOWHERE
    }
}

/// Writes where each row rests: at its limit, or, if that reaches an away price that is left, working there and shown next to it.
pub fn rest<L: Ladder, M: ShownMarket>(book: &mut Book, ladder: &L, market: &M)
    ensures { rows_of book.new ≡ map (rested_row (L.Ladder.permitted ladder.now) (λ side. best_of side (M.ShownMarket.shown market.now side))) (rows_of book.old) }
{
    // By index, since a row is written through the book before the next is read.
    for i in 0..book.rows().len() {
        let row = book.rows()[i];
        let at = resting_of(ladder, market, &row);
        book.rest(i, at.working, at.shown);
    }
}
