//! What the rows of a book and the away market come to at a price.
ghost use Rattle.std.specs.Prelude.{◌≡◌, true, if◌then◌else◌, Some, None};
ghost use Rattle.interest.specs.Bounds.{priced};
ghost use Rattle.interest.specs.Sides.{opposite};
ghost use Rattle.book.specs.Books.{rows_of};
ghost use Rattle.market.specs.Counts.{counted, one_better};
ghost use Rattle.pricing.specs.Prices.{opening, allowed, unmatched_of, side_of, contracts_of, better_of, figures_at};
ghost use Rattle.pricing.specs.Best.{Slope, Slopes};

use book::book::Book;
use interest::{Side, is_price};
use market::ShownMarket;
use std::cmp::Ordering;

/// Whether an opening takes only prices with nothing better away, or routes to better prices first.
#[derive(Clone, Copy, PartialEq, Eq, Debug)]
pub enum Mode {
    Exchange,
    Routing,
}

impl Mode {
    /// Whether better contracts leave a price usable.
    fn allows(self, better: u32, routable: u32) -> bool
        ensures { result ≡ allowed self better routable }
    {
        match self {
            Mode::Exchange => better == 0,
            Mode::Routing => better <= routable,
        }
    }
}

/// What routing and filling leave on the larger side.
// Three cases of their own: an `Option` of a side with its contracts would be taken apart wherever one is matched.
#[derive(Clone, Copy, PartialEq, Eq, Debug)]
pub enum Unmatched {
    Nothing,
    Buys(u32),
    Sells(u32),
}

impl Unmatched {
    /// What two sides leave: their difference, on the larger.
    fn between(buys: u32, sells: u32) -> Unmatched
        ensures { result ≡ unmatched_of buys sells }
    {
        match buys.cmp(&sells) {
            Ordering::Greater => Unmatched::Buys(buys - sells),
            Ordering::Less => Unmatched::Sells(sells - buys),
            Ordering::Equal => Unmatched::Nothing,
        }
    }

    /// Its side, if anything is left.
    pub fn side(self) -> Option<Side>
        ensures { result ≡ side_of self }
    {
        match self {
            Unmatched::Nothing => None,
            Unmatched::Buys(_) => Some(Side::Buy),
            Unmatched::Sells(_) => Some(Side::Sell),
        }
    }

    /// How many contracts.
    pub fn contracts(self) -> u32
        ensures { result ≡ contracts_of self }
    {
        match self {
            Unmatched::Nothing => 0,
            Unmatched::Buys(n) => n,
            Unmatched::Sells(n) => n,
        }
    }
}

/// What a price comes to. Better offers and bids are told up to the largest `u32`.
#[derive(Clone, Copy)]
pub struct Figures {
    pub buys: u32,
    pub sells: u32,
    pub better_offers: u32,
    pub better_bids: u32,
    pub usable: bool,
    pub volume: u32,
    pub unmatched: Unmatched,
}

impl Figures {
    /// The better away contracts that rows of a side could have. A match, and no map by side: readers know the fields by name.
    pub(crate) fn better(self, side: Side) -> u32
        ensures { result ≡ better_of self side }
    {
        match side {
            Side::Buy => self.better_offers,
            Side::Sell => self.better_bids,
        }
    }
}

/// What a price comes to; none for a number that is no price.
pub fn figures_at<M: ShownMarket>(
    book: &Book,
    market: &M,
    mode: Mode,
    price: u32,
) -> Option<Figures>
    ensures is { result ≡ (if priced price then Some (figures_at (opening (rows_of book.now) (M.ShownMarket.shown market.now) mode) price) else None) }
    ensures slopes { Slopes (opening (rows_of book.now) (M.ShownMarket.shown market.now) mode) price result }
{
    is_price(price).then(|| figures_of(book, market, mode, price))
}

// The price stays a number with a `requires`, here and in two more: the permitted prices that are walked over are numbers.
pub(crate) fn figures_of<M: ShownMarket>(book: &Book, market: &M, mode: Mode, price: u32) -> Figures
    requires { priced price ≡ true }
    ensures is { result ≡ figures_at (opening (rows_of book.now) (M.ShownMarket.shown market.now) mode) price }
    ensures slope { Slope (opening (rows_of book.now) (M.ShownMarket.shown market.now) mode) price result }
{
    let depth = book.depth_at(price);
    let better_offers = better_for(Side::Buy, market, price);
    let better_bids = better_for(Side::Sell, market, price);
    let buys = depth.buys.saturating_sub(better_offers);
    let sells = depth.sells.saturating_sub(better_bids);
    let offers_taken = mode.allows(better_offers, depth.routable_buys);
    let bids_taken = mode.allows(better_bids, depth.routable_sells);
    Figures {
        buys: depth.buys,
        sells: depth.sells,
        better_offers,
        better_bids,
        usable: offers_taken && bids_taken,
        volume: buys.min(sells),
        unmatched: Unmatched::between(buys, sells),
    }
}

/// The better away contracts that rows of a side could have, as far as a count goes.
fn better_for<M: ShownMarket>(side: Side, market: &M, price: u32) -> u32
    requires { priced price ≡ true }
    ensures { result ≡ counted (M.ShownMarket.shown market.now (opposite side)) (one_better (opposite side) price) 4294967295 }
{
    let better = match side {
        Side::Buy => price - 1,
        Side::Sell => price + 1,
    };
    market.count(side.opposite(), better, u32::MAX)
}
