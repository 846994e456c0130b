//! Rows and what is told of them.
ghost use Rattle.std.specs.Prelude.{◌≡◌, ◌-◌, min, Some};
ghost use Rattle.book.specs.Rows.{order_owned, is_order, is_quote_of, place};
ghost use Rattle.book.specs.Reads.{is_quote_side, quote_price, reading_of};
ghost use Rattle.book.specs.Edits.{blank_row, order_row, quote_row, sized_quote, priced_quote};
ghost use Rattle.book.specs.Rewrites.{less_left};
ghost use Rattle.book.specs.Texts.{reading_text};

use interest::{Class, Limit, Side, is_price, is_size};
use std::fmt;

/// Whose a row is: an order goes by its number, a side of a quote by its maker.
#[derive(Clone, Copy, PartialEq, Eq, Debug)]
pub enum Owner {
    Order(u32),
    Quote(u32),
}

/// An order, or one side of a maker's quote. Of the `size` contracts accepted each is traded, routed, cancelled or left.
/// Both prices are 0 until the row rests: numbers, as they are told, since there may be none to show where there is one to work
/// at, and an `Option` of a pair of them would not be plainer.
#[derive(Clone, Copy)]
pub struct Row {
    pub owner: Owner,
    pub side: Side,
    pub limit: Limit,
    pub class: Class,
    pub size: u32,
    pub traded: u32,
    pub routed: u32,
    pub cancelled: u32,
    pub left: u32,
    pub working: u32,
    pub shown: u32,
}

/// A row with no contracts.
pub(crate) const BLANK: Row = Row {
    owner: Owner::Order(0),
    side: Side::Buy,
    limit: Limit::Market,
    class: Class::Other,
    size: 0,
    traded: 0,
    routed: 0,
    cancelled: 0,
    left: 0,
    working: 0,
    shown: 0,
};

/// The row that fills the places where no row stands.
impl Default for Row {
    ghost is_default = { λ row. row ≡ blank_row };

    fn default() -> Row {
        BLANK
    }
}

impl Row {
    /// The row of one side of a quote as it is accepted.
    pub(crate) fn quoted(maker: u32, side: Side, price: u32, size: u32) -> Row
        ensures { result ≡ quote_row maker side price size }
    {
        Row {
            owner: Owner::Quote(maker),
            side,
            limit: Limit::At(price),
            size,
            left: size,
            ..BLANK
        }
    }

    /// Whether it is an order.
    pub(crate) fn is_any_order(&self) -> bool
        ensures { result ≡ order_owned self.now.owner }
    {
        matches!(self.owner, Owner::Order(_))
    }

    /// Whether it is the order of that number.
    pub(crate) fn is_order(&self, number: u32) -> bool
        ensures { result ≡ is_order number self.now }
    {
        self.owner == Owner::Order(number)
    }

    /// Whether it is a side of that maker's quote.
    pub(crate) fn is_quote_of(&self, maker: u32) -> bool
        ensures { result ≡ is_quote_of maker self.now }
    {
        self.owner == Owner::Quote(maker)
    }

    /// Whether it is that side of that maker's quote.
    pub(crate) fn is_quote_side(&self, maker: u32, side: Side) -> bool
        ensures { result ≡ is_quote_side maker side self.now }
    {
        self.is_quote_of(maker) && self.side == side
    }

    /// The place of a row in row order. It saturates only at a maker number of 0, which no row of a table has.
    pub(crate) fn place(self) -> u64
        ensures { result ≡ place self }
    {
        match (self.owner, self.side) {
            (Owner::Order(_), _) => 0,
            (Owner::Quote(maker), Side::Buy) => (2 * u64::from(maker)).saturating_sub(1),
            (Owner::Quote(maker), Side::Sell) => 2 * u64::from(maker),
        }
    }

    /// The price of that side of a quote; another row has none.
    pub(crate) fn quote_price(&self, side: Side) -> Option<u32>
        ensures { result ≡ quote_price side self.now }
    {
        match (self.owner, self.limit) {
            (Owner::Quote(_), Limit::At(price)) if self.side == side => Some(price),
            _ => None,
        }
    }

    /// Takes up to `n` of the contracts left, and answers how many.
    pub(crate) fn take_left(&mut self, n: u32) -> u32
        ensures taken { result ≡ min n self.old.left }
        ensures row { self.new ≡ less_left n self.old }
    {
        let taken = n.min(self.left);
        self.left -= taken;
        taken
    }
}

/// An order as it is entered. Its number is not 0.
#[derive(Clone, Copy)]
pub struct Order {
    pub number: u32,
    pub side: Side,
    pub limit: Limit,
    pub size: u32,
    pub class: Class,
}

/// The row of an order as it is accepted.
impl From<Order> for Row {
    ghost from_gives = { λ order row. row ≡ order_row order };

    fn from(order: Order) -> Row {
        Row {
            owner: Owner::Order(order.number),
            side: order.side,
            limit: order.limit,
            class: order.class,
            size: order.size,
            left: order.size,
            ..BLANK
        }
    }
}

/// A quote as a maker gives it. By the rules a bid of 0 is none, and has size 0.
#[derive(Clone, Copy)]
pub struct Quote {
    pub bid: u32,
    pub bid_size: u32,
    pub offer: u32,
    pub offer_size: u32,
}

impl Quote {
    /// Whether the sizes are in bounds; that of no bid is 0.
    pub fn is_sized(&self) -> bool
        ensures { result ≡ sized_quote self.now }
    {
        let bid_sized = if self.bid == 0 {
            self.bid_size == 0
        } else {
            is_size(self.bid_size)
        };
        bid_sized && is_size(self.offer_size)
    }

    /// Whether the prices are in bounds; no bid is 0.
    pub(crate) fn is_priced(&self) -> bool
        ensures { result ≡ priced_quote self.now }
    {
        (self.bid == 0 || is_price(self.bid)) && is_price(self.offer)
    }
}

/// The contracts of a quote that were left when it was taken out or replaced.
#[derive(Clone, Copy, PartialEq, Eq, Debug)]
pub struct TakenBack {
    pub bids: u32,
    pub offers: u32,
}

/// Where the contracts of a row are, and the prices at which those left rest: numbers as in a row, both 0 with nothing left.
#[derive(Clone, Copy, PartialEq, Eq, Debug)]
pub struct Reading {
    pub traded: u32,
    pub routed: u32,
    pub cancelled: u32,
    pub left: u32,
    pub working: u32,
    pub shown: u32,
}

/// What is told of a row.
impl From<Row> for Reading {
    ghost from_gives = { λ row reading. reading ≡ reading_of row };

    fn from(row: Row) -> Reading {
        let rests = row.left > 0;
        Reading {
            traded: row.traded,
            routed: row.routed,
            cancelled: row.cancelled,
            left: row.left,
            working: if rests { row.working } else { 0 },
            shown: if rests { row.shown } else { 0 },
        }
    }
}

impl fmt::Display for Reading {
    ghost output = { λ r. Some (reading_text r) };

    fn fmt<W: fmt::Write>(&self, f: &mut fmt::Formatter<W>) -> fmt::Result {
        let Reading {
            traded,
            routed,
            cancelled,
            left,
            working,
            shown,
        } = *self;
        write!(
            f,
            "order traded {traded} routed {routed} cancelled {cancelled} left {left} working {working} shown {shown}"
        )
    }
}

/// The contracts of one side of a table, by where they are.
#[derive(Clone, Copy, PartialEq, Eq, Debug)]
pub struct Totals {
    pub accepted: u32,
    pub traded: u32,
    pub routed: u32,
    pub cancelled: u32,
    pub left: u32,
}
