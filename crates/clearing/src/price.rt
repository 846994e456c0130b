//! Prices in bounds.
ghost use Rattle.std.specs.Prelude.{◌≡◌, true};
ghost use Rattle.interest.specs.Bounds.{priced};

use interest::{Limit, Side, is_price};
use levels::rank_of;

/// A whole cent from 1 to 100,000.
#[derive(Clone, Copy)]
pub(crate) struct Price {
    pub(crate) cents: u32,
    ghost priced: { priced cents ≡ true },
}

impl Price {
    ghost use Rattle.book.specs.Ranks.{ranks_at};
    ghost use Rattle.clearing.specs.Openings.{priced_only, told_price, better_than};

    /// A price out of bounds is none.
    pub(crate) fn in_bounds(cents: u32) -> Option<Price>
        ensures { told_price result ≡ priced_only (Some cents) }
    {
        if is_price(cents) {
            Some(Price { cents })
        } else {
            None
        }
    }

    /// One past the ranks of a side's limits that take the price.
    pub(crate) fn ranks(self, side: Side) -> u32
        ensures { result ≡ ranks_at side self.cents }
    {
        rank_of(side, Limit::At(self.cents)) + 1
    }

    /// A step better for a side's rows: buys go to offers below it, sells to bids above it.
    pub(crate) fn better(self, side: Side) -> u32
        ensures { result ≡ better_than self.cents side }
    {
        match side {
            Side::Buy => self.cents - 1,
            Side::Sell => self.cents + 1,
        }
    }
}
