//! A market of one entry to a side.
ghost use Rattle.std.specs.Prelude.{◌≡◌, ℕ, ◌-◌, ◌≤◌};
ghost use Rattle.interest.specs.Sides.{opposite};
ghost use Rattle.market.specs.Counts.{counted, best_of};
ghost use Rattle.market.specs.Entries.{in_bounds, shows, entry_shows, entry_of, with_entry, lessened, single_shown};
ghost use Rattle.std.proofs.Common.{rules};

use crate::{Market, ShownMarket, reached};
use interest::{Side, is_price, is_size};

/// So many contracts at a price. With its price or its size out of bounds it shows nothing.
#[derive(Clone, Copy)]
pub struct Entry {
    pub price: u32,
    pub size: u32,
}

impl Entry {
    /// Whether the price and the size are in bounds.
    pub fn stands(&self) -> bool
        ensures { result ≡ in_bounds self.now.price self.now.size }
    {
        is_price(self.price) && is_size(self.size)
    }

    /// The smaller of `n` and what the entry shows at a price, as an entry of the side; 0 out of bounds.
    pub fn count(&self, side: Side, price: u32, n: u32) -> u32
        ensures { result ≡ counted (shows side self.now.price self.now.size) price n }
    {
        if self.stands() && is_price(price) && reached(side, self.price, price) {
            n.min(self.size)
        } else {
            0
        }
    }
}

/// One optional bid and one optional offer.
#[derive(Clone, Copy)]
pub struct SingleMarket {
    pub bid: Option<Entry>,
    pub offer: Option<Entry>,
}

impl SingleMarket {
    /// The entry of a side. A match, and no map by side: callers make the value by the names of its fields.
    pub fn entry(&self, side: Side) -> Option<Entry>
        ensures { result ≡ entry_of self.now side }
    {
        match side {
            Side::Buy => self.bid,
            Side::Sell => self.offer,
        }
    }

    /// Puts an entry, or none, in the place of a side's.
    pub fn set(&mut self, side: Side, entry: Option<Entry>)
        ensures { self.new ≡ with_entry self.old side entry }
    {
        match side {
            Side::Buy => self.bid = entry,
            Side::Sell => self.offer = entry,
        }
    }
}

impl ShownMarket for SingleMarket {
    ghost shown = { single_shown };

    ghost worsens = { Prim.search rules };

    ghost edge = { Prim.search rules };

    fn best(&self, side: Side) -> Option<u32> {
        self.entry(side).filter(|e| e.stands()).map(|e| e.price)
    }

    fn count(&self, side: Side, price: u32, n: u32) -> u32 {
        self.entry(side).map_or(0, |e| e.count(side, price, n))
    }
}

/// Takes up to `n` of what an entry shows at a price.
fn take(entry: &mut Option<Entry>, side: Side, price: u32, n: u32) -> u32
    ensures answer { result ≡ counted (entry_shows side entry.old) price n }
    ensures left { entry.new ≡ lessened entry.old result }
{
    let Some(e) = entry else {
        return 0;
    };
    let sent = e.count(side, price, n);
    e.size -= sent;
    sent
}

impl Market for SingleMarket {
    ghost leaves = { λ d _ _ m s t. t ≡ with_entry s d (lessened (entry_of s d) m) };

    fn send(&mut self, side: Side, price: u32, n: u32) -> u32 {
        let mut entry = self.entry(side);
        let sent = take(&mut entry, side, price, n);
        self.set(side, entry);
        sent
    }
}
