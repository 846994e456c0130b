//! What is read from a table.
ghost use Rattle.std.specs.Prelude.{◌≡◌, ◌+◌};
ghost use Rattle.interest.specs.declared.Side.TheVariants.{Buy, Sell};
ghost use Rattle.book.specs.Rows.{is_order, is_quote_of, order_count};
ghost use Rattle.book.specs.Books.{rows_of};
ghost use Rattle.book.specs.Reads.{is_quote_side, first, stands, read_order, read_quote, quoting, totals_of, better, best_quote, BestQuote};

use crate::book::Book;
use crate::row::{Reading, Row, Totals};
use interest::{MAKERS, Side};

/// The better of two prices of a side.
fn better(side: Side, p: u32, q: u32) -> u32
    ensures { result ≡ better side p q }
{
    match side {
        Side::Buy => p.max(q),
        Side::Sell => p.min(q),
    }
}

impl Book {
    /// How many orders stand.
    pub fn orders(&self) -> usize
        ensures { result ≡ order_count (rows_of self.now) }
    {
        self.rows().iter().filter(|row| row.is_any_order()).count()
    }

    /// The order of that number, if it stands.
    pub(crate) fn order(&self, number: u32) -> Option<Row>
        ensures { result ≡ first (is_order number) (rows_of self.now) }
    {
        self.rows().iter().copied().find(|row| row.is_order(number))
    }

    /// One side of a maker's quote, if it stands.
    pub(crate) fn quote_side(&self, maker: u32, side: Side) -> Option<Row>
        ensures { result ≡ first (is_quote_side maker side) (rows_of self.now) }
    {
        self.rows()
            .iter()
            .copied()
            .find(|row| row.is_quote_side(maker, side))
    }

    /// Whether the order of that number stands.
    pub fn has_order(&self, number: u32) -> bool
        ensures { result ≡ stands (is_order number) (rows_of self.now) }
    {
        self.rows().iter().any(|row| row.is_order(number))
    }

    /// Whether a maker quotes; a quote with no bid counts.
    pub fn has_quote(&self, maker: u32) -> bool
        ensures { result ≡ stands (is_quote_of maker) (rows_of self.now) }
    {
        self.rows().iter().any(|row| row.is_quote_of(maker))
    }

    /// How many makers other than the Primary Market Maker quote.
    pub fn other_makers(&self) -> u32
        ensures { result ≡ quoting 2 15 (rows_of self.now) }
    {
        // Not `2..=MAKERS`: no lemma of std lists the numbers of an inclusive range.
        (2..MAKERS + 1)
            .filter(|maker| self.has_quote(*maker))
            .count() as u32
    }

    /// The best price of the quotes of a side, where there is one.
    fn best_quote(&self, side: Side) -> Option<u32>
        ensures equation { result ≡ best_quote side (rows_of self.now) }
        ensures best { BestQuote side (rows_of self.now) result }
    {
        self.rows()
            .iter()
            .filter_map(|row| row.quote_price(side))
            .reduce(|best, price| better(side, best, price))
    }

    /// The highest bid of the quotes, where one bids.
    pub fn highest_bid(&self) -> Option<u32>
        ensures equation { result ≡ best_quote Buy (rows_of self.now) }
        ensures best { BestQuote Buy (rows_of self.now) result }
    {
        self.best_quote(Side::Buy)
    }

    /// The lowest offer of the quotes, where there is a quote.
    pub fn lowest_offer(&self) -> Option<u32>
        ensures equation { result ≡ best_quote Sell (rows_of self.now) }
        ensures best { BestQuote Sell (rows_of self.now) result }
    {
        self.best_quote(Side::Sell)
    }

    /// What is told of an order that stands.
    pub fn read_order(&self, number: u32) -> Option<Reading>
        ensures { result ≡ read_order number (rows_of self.now) }
    {
        self.order(number).map(Reading::from)
    }

    /// What is told of one side of a maker's quote.
    pub fn read_quote(&self, maker: u32, side: Side) -> Option<Reading>
        ensures { result ≡ read_quote maker side (rows_of self.now) }
    {
        self.quote_side(maker, side).map(Reading::from)
    }

    /// The contracts of one side, each in one of four places.
    pub fn totals(&self, side: Side) -> Totals
        ensures equation { result ≡ totals_of side (rows_of self.now) }
        ensures balance { result.accepted ≡ result.traded + result.routed + result.cancelled + result.left }
    {
        let mut totals = Totals {
            accepted: 0,
            traded: 0,
            routed: 0,
            cancelled: 0,
            left: 0,
        };
        for row in self.rows() {
            if row.side == side {
                totals.accepted += row.size;
                totals.traded += row.traded;
                totals.routed += row.routed;
                totals.cancelled += row.cancelled;
                totals.left += row.left;
            }
        }
        totals
    }
}
