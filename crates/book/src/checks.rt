//! Why an edit of a table is refused.
ghost use Rattle.std.specs.Prelude.{◌≡◌};
ghost use Rattle.book.specs.Rows.{bounded_limit};
ghost use Rattle.book.specs.Books.{rows_of};
ghost use Rattle.book.specs.Edits.{answered, add_cause, quote_cause, quote_out_cause};

use crate::book::{Book, ORDERS};
use crate::row::{Order, Quote};
use interest::{Limit, Refusal, is_maker, is_price, is_size};

/// Whether an order may have that limit.
fn is_limit(limit: Limit) -> bool
    ensures { result ≡ bounded_limit limit }
{
    match limit {
        Limit::Market => true,
        Limit::At(price) => is_price(price),
    }
}

/// Whether a maker may give a quote, and if not, the first cause.
pub(crate) fn check_quote(maker: u32, quote: Quote) -> Result<(), Refusal>
    ensures { result ≡ answered (quote_cause maker quote) tt }
{
    if !is_maker(maker) {
        return Err(Refusal::NumberOutOfBounds);
    }
    if !quote.is_sized() {
        return Err(Refusal::SizeOutOfBounds);
    }
    if !quote.is_priced() {
        return Err(Refusal::PriceNotPermitted);
    }
    if quote.offer <= quote.bid {
        return Err(Refusal::BidNotBelowOffer);
    }
    Ok(())
}

impl Book {
    /// Whether an order may be added, and if not, the first cause.
    pub(crate) fn check_order(&self, order: Order) -> Result<(), Refusal>
        ensures { result ≡ answered (add_cause order (rows_of self.now)) tt }
    {
        if order.number == 0 {
            return Err(Refusal::NumberOutOfBounds);
        }
        if !is_size(order.size) {
            return Err(Refusal::SizeOutOfBounds);
        }
        if !is_limit(order.limit) {
            return Err(Refusal::PriceNotPermitted);
        }
        if self.has_order(order.number) {
            return Err(Refusal::NumberStanding);
        }
        if ORDERS <= self.orders() {
            return Err(Refusal::BookFull);
        }
        Ok(())
    }

    /// Whether a maker's quote may be taken out, and if not, the first cause.
    pub(crate) fn check_quote_out(&self, maker: u32) -> Result<(), Refusal>
        ensures { result ≡ answered (quote_out_cause maker (rows_of self.now)) tt }
    {
        if !is_maker(maker) {
            return Err(Refusal::NumberOutOfBounds);
        }
        if !self.has_quote(maker) {
            return Err(Refusal::NothingStanding);
        }
        Ok(())
    }
}
