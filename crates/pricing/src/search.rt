//! The choice of a price in a range.
ghost use Rattle.std.specs.Prelude.{◌≡◌, ℕ, suc, ◌-◌, true};
ghost use Rattle.interest.specs.Bounds.{priced};
ghost use Rattle.book.specs.Books.{rows_of};
ghost use Rattle.pricing.specs.Prices.{left_through};
ghost use Rattle.pricing.specs.Choosing.{nearer, middle, choice_at};
ghost use Rattle.pricing.specs.Best.{CrossesMost};
ghost use Rattle.pricing.specs.Tallies.{fresh, joined, stepped, Seen, comes_to, leading_of};
ghost use Rattle.pricing.specs.Scenes.{scene_of, opening_in, chosen_in, ChosenIn, Told};

use crate::figures::{Figures, Mode, Unmatched, figures_of};
use crate::rungs::Rungs;
use crate::scene::Scene;
use book::sums::Through;
use ladder::Ladder;
use market::ShownMarket;
use ranges::Range;
use std::cmp::Ordering;

/// A chosen price: its volume, what it leaves unmatched, and how many of those are through it.
#[derive(Clone, Copy, PartialEq, Eq, Debug)]
pub struct Choice {
    pub price: u32,
    pub volume: u32,
    pub unmatched: Unmatched,
    pub through: u32,
}

/// A price with the contracts that it leaves.
#[derive(Clone, Copy)]
struct Lead {
    price: u32,
    contracts: u32,
}

/// What a walk has found: the greatest volume, and of the prices of that volume the lowest and the highest that leave nothing
/// unmatched, the highest that leaves buys and the lowest that leaves sells.
#[derive(Clone, Copy)]
struct Tally {
    volume: u32,
    first: Option<u32>,
    last: Option<u32>,
    buys: Option<Lead>,
    sells: Option<Lead>,
}

impl Tally {
    fn fresh(volume: u32) -> Tally
        ensures { result ≡ fresh volume }
    {
        Tally {
            volume,
            first: None,
            last: None,
            buys: None,
            sells: None,
        }
    }

    /// Takes a price of the tally's volume in.
    fn join(self, price: u32, unmatched: Unmatched) -> Tally
        ensures { result ≡ joined self price unmatched }
    {
        match unmatched {
            Unmatched::Nothing => Tally {
                first: self.first.or(Some(price)),
                last: Some(price),
                ..self
            },
            Unmatched::Buys(contracts) => Tally {
                buys: Some(Lead { price, contracts }),
                ..self
            },
            Unmatched::Sells(contracts) => Tally {
                sells: self.sells.or(Some(Lead { price, contracts })),
                ..self
            },
        }
    }

    /// Takes a price in, if it may be taken and trades at least as much as those before it.
    fn step(self, price: u32, at: Figures) -> Tally
        ensures { result ≡ stepped self price at }
    {
        if !at.usable || at.volume == 0 {
            return self;
        }
        match at.volume.cmp(&self.volume) {
            Ordering::Less => self,
            Ordering::Equal => self.join(price, at.unmatched),
            Ordering::Greater => Tally::fresh(at.volume).join(price, at.unmatched),
        }
    }
}

impl<L: Ladder, M: ShownMarket> Scene<'_, L, M> {
    /// The choice among the permitted prices of a range, whatever its ends are.
    pub fn choose(&self, mode: Mode, range: Range) -> Option<Choice>
        ensures is { result ≡ chosen_in (scene_of L.Ladder.permitted M.ShownMarket.shown self.now) mode range }
        ensures best { ChosenIn (scene_of L.Ladder.permitted M.ShownMarket.shown self.now) mode range result }
        ensures crosses { mode ≡ Mode.Exchange → CrossesMost (rows_of self.now.book.now) result }
    {
        let price = self.price_in(mode, range)?;
        Some(self.choice_at(mode, price))
    }

    /// The price of the choice.
    fn price_in(&self, mode: Mode, range: Range) -> Option<u32>
        ensures { Told (scene_of L.Ladder.permitted M.ShownMarket.shown self.now) mode range result }
    {
        self.settle(self.walk(mode, range))
    }

    /// Goes over the permitted prices of a range once.
    fn walk(&self, mode: Mode, range: Range) -> Tally
        ensures { Seen (L.Ladder.permitted self.now.ladder.now) (opening_in (scene_of L.Ladder.permitted M.ShownMarket.shown self.now) mode) range.low (suc range.high - range.low) result }
    {
        let mut tally = Tally::fresh(0);
        for price in Rungs::new(self.ladder, range) {
            tally = tally.step(price, figures_of(self.book, self.market, mode, price));
        }
        tally
    }

    /// The price that a tally comes to.
    fn settle(&self, tally: Tally) -> Option<u32>
        ensures { result ≡ comes_to (L.Ladder.permitted self.now.ladder.now) self.now.close tally }
    {
        if tally.volume == 0 {
            return None;
        }
        match tally.first {
            Some(low) => Some(self.middle_of(low, tally.last.unwrap_or(low))),
            None => leading(tally.buys, tally.sells),
        }
    }

    /// The midpoint of two prices, or the nearer of its permitted neighbours.
    fn middle_of(&self, low: u32, high: u32) -> u32
        ensures { result ≡ middle (L.Ladder.permitted self.now.ladder.now) self.now.close low high }
    {
        let sum = u64::from(low) + u64::from(high);
        let under = low.midpoint(high);
        let over = sum.div_ceil(2) as u32;
        if sum % 2 == 0 && self.ladder.permits(under) {
            under
        } else {
            nearer_to(
                self.close,
                self.ladder.at_or_below(under).unwrap_or(low),
                self.ladder.at_or_above(over).unwrap_or(high),
            )
        }
    }

    /// What is told of a chosen price.
    fn choice_at(&self, mode: Mode, price: u32) -> Choice
        requires { priced price ≡ true }
        ensures { result ≡ choice_at (opening_in (scene_of L.Ladder.permitted M.ShownMarket.shown self.now) mode) price }
    {
        let at = figures_of(self.book, self.market, mode, price);
        let through = at.unmatched.side().map_or(0, |side| {
            left_of(self.book.through(side, price), at.better(side), at.volume)
        });
        Choice {
            price,
            volume: at.volume,
            unmatched: at.unmatched,
            through,
        }
    }
}

/// The only one, or the one that leaves more; if equal, the former.
fn leading(buys: Option<Lead>, sells: Option<Lead>) -> Option<u32>
    ensures { result ≡ leading_of buys sells }
{
    match (buys, sells) {
        (Some(x), Some(y)) if x.contracts < y.contracts => Some(y.price),
        _ => buys.or(sells).map(|lead| lead.price),
    }
}

/// The nearer to the prior close; with no close, or equally near, the upper.
fn nearer_to(close: Option<u32>, under: u32, over: u32) -> u32
    ensures { result ≡ nearer close under over }
{
    match close {
        Some(close) if under.abs_diff(close) < over.abs_diff(close) => under,
        _ => over,
    }
}

/// What routing and filling leave of the contracts through a price.
fn left_of(through: Through, better: u32, volume: u32) -> u32
    ensures { result ≡ left_through through.contracts through.routable better volume }
{
    let routed = better.min(through.routable);
    through
        .contracts
        .saturating_sub(routed)
        .saturating_sub(volume)
}

#[cfg(test)]
mod tests {
    use super::*;
    use book::book::Book;
    use ladder::{EveryCent, Stepped};
    use market::single::SingleMarket;

    fn middle<L: Ladder>(ladder: &L, close: Option<u32>, low: u32, high: u32) -> u32 {
        let scene = Scene {
            ladder,
            close,
            book: &Book::new(),
            market: &SingleMarket {
                bid: None,
                offer: None,
            },
        };
        scene.middle_of(low, high)
    }

    #[test]
    fn neighbours(rt: HostRuntime) {
        assert_eq!(rt; middle(&EveryCent, None, 100, 105), 103);
        assert_eq!(rt; middle(&EveryCent, Some(90), 100, 105), 102);
        assert_eq!(rt; middle(&Stepped, Some(302), 300, 310), 305);
        assert_eq!(rt; middle(&Stepped, Some(301), 295, 310), 300);
    }

    fn lead(price: u32, contracts: u32) -> Option<Lead> {
        Some(Lead { price, contracts })
    }

    #[test]
    fn larger_side(rt: HostRuntime) {
        assert_eq!(rt; leading(lead(104, 100), lead(105, 100)), Some(104));
        assert_eq!(rt; leading(lead(104, 100), lead(105, 120)), Some(105));
        assert_eq!(rt; leading(lead(104, 100), None), Some(104));
        assert_eq!(rt; leading(None, lead(105, 100)), Some(105));
    }
}
