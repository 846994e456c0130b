//! The rows of a book, and sums of the contracts left in them. The sums run for each price, so each is one pass over the rows.
ghost use Rattle.std.specs.Prelude.{◌≡◌, ◌≤◌, if◌then◌else◌};
ghost use Rattle.book.specs.Ranks.{routable_class, takes_price, through_price};
ghost use Rattle.book.specs.Books.{rows_of};
ghost use Rattle.book.specs.Sums.{depth_of, through_of};

use crate::book::Book;
use crate::row::Row;
use interest::{Class, Limit, Side};

/// The contracts of each side at a price, and how many of them may be routed.
#[derive(Clone, Copy)]
pub struct Depth {
    pub buys: u32,
    pub sells: u32,
    pub routable_buys: u32,
    pub routable_sells: u32,
}

/// The contracts of a side through a price, and how many of them may be routed.
#[derive(Clone, Copy)]
pub struct Through {
    pub contracts: u32,
    pub routable: u32,
}

/// Whether a limit of a side takes a price.
pub(crate) fn takes(side: Side, price: u32, limit: Limit) -> bool
    ensures { result ≡ takes_price side price limit }
{
    match (side, limit) {
        (_, Limit::Market) => true,
        (Side::Buy, Limit::At(x)) => price <= x,
        (Side::Sell, Limit::At(x)) => x <= price,
    }
}

/// Whether a limit of a side is through a price.
pub fn is_through(side: Side, price: u32, limit: Limit) -> bool
    ensures { result ≡ through_price side price limit }
{
    match (side, limit) {
        (_, Limit::Market) => true,
        (Side::Buy, Limit::At(x)) => price < x,
        (Side::Sell, Limit::At(x)) => x < price,
    }
}

/// Whether rows of a class may be routed.
pub fn is_routable(class: Class) -> bool
    ensures { result ≡ routable_class class }
{
    class == Class::Routable
}

/// A size, or 0 where it does not count.
fn size_if(counted: bool, size: u32) -> u32
    ensures { result ≡ (if counted then size else 0) }
{
    if counted { size } else { 0 }
}

impl Book {
    /// The rows, in row order.
    pub fn rows(&self) -> &[Row]
        ensures { result.now ≡ rows_of self.now }
    {
        &self.rows
    }

    /// What the rows want at a price.
    pub fn depth_at(&self, price: u32) -> Depth
        ensures is { result ≡ depth_of price (rows_of self.now) }
        ensures few_buys { result.buys ≤ 128000000 }
        ensures few_sells { result.sells ≤ 128000000 }
        ensures routable_buys { result.routable_buys ≤ result.buys }
        ensures routable_sells { result.routable_sells ≤ result.sells }
    {
        let mut buys = 0;
        let mut sells = 0;
        let mut routable_buys = 0;
        let mut routable_sells = 0;
        for row in self.rows() {
            let buy = row.side == Side::Buy;
            let sell = row.side == Side::Sell;
            let routable = is_routable(row.class);
            let buys_it = takes(Side::Buy, price, row.limit);
            let sells_it = takes(Side::Sell, price, row.limit);
            buys += size_if(buy & buys_it, row.left);
            sells += size_if(sell & sells_it, row.left);
            routable_buys += size_if((buy & routable) & buys_it, row.left);
            routable_sells += size_if((sell & routable) & sells_it, row.left);
        }
        Depth {
            buys,
            sells,
            routable_buys,
            routable_sells,
        }
    }

    /// What the rows of a side have through a price.
    pub fn through(&self, side: Side, price: u32) -> Through
        ensures is { result ≡ through_of side price (rows_of self.now) }
        ensures few { result.contracts ≤ 128000000 }
        ensures routable { result.routable ≤ result.contracts }
    {
        let mut contracts = 0;
        let mut routable = 0;
        for row in self.rows() {
            let own = row.side == side;
            let can_route = is_routable(row.class);
            let through = is_through(side, price, row.limit);
            contracts += size_if(own & through, row.left);
            routable += size_if((own & can_route) & through, row.left);
        }
        Through {
            contracts,
            routable,
        }
    }
}
