//! What is done to a table.
ghost use Rattle.std.specs.Prelude.{◌≡◌, true, false, [], is_ok, IfOk, if◌then◌else◌, None, OnOk, count_by, nat_le};
ghost use Rattle.std.specs.List.{AllByRecursion};
ghost use Rattle.book.specs.Rows.{sound_table, place, is_quote_of};
ghost use Rattle.book.specs.Books.{rows_of};
ghost use Rattle.book.specs.Edits.{placed, added, without_order, without_quote, quoted, add_cause, quote_cause, quote_out_cause, answered, take_out_answer, left_of_quote};
ghost use Rattle.book.specs.Effects.{OrderAdded, OrderOut, QuoteSet, QuoteOut};

use crate::book::Book;
use crate::checks::check_quote;
use crate::row::{Order, Quote, Row, TakenBack};
use arrayvec::ArrayVec;
use interest::{Refusal, Side};

impl Book {
    /// A table with no row.
    pub fn new() -> Book
        ensures { rows_of result ≡ [] }
    {
        Book {
            rows: ArrayVec::new(),
        }
    }

    /// Where a row belongs: behind the rows of its own place and of those before.
    fn index_for(&self, row: Row) -> usize
        ensures { result ≡ count_by (λ x. nat_le (place x) (place row)) (rows_of self.now) }
    {
        let place = row.place();
        self.rows().partition_point(|other| other.place() <= place)
    }

    /// Puts a row in its place.
    fn insert(&mut self, row: Row)
        requires { sound_table (placed row (rows_of self.old)) ≡ true }
        ensures { rows_of self.new ≡ placed row (rows_of self.old) }
    {
        let at = self.index_for(row);
        self.rows.insert(at, row);
    }

    /// Adds an order as the last of the orders, and answers its size.
    pub fn add(&mut self, order: Order) -> Result<u32, Refusal>
        ensures answer { result ≡ answered (add_cause order (rows_of self.old)) order.size }
        ensures table { rows_of self.new ≡ (if is_ok result then added order (rows_of self.old) else rows_of self.old) }
        ensures effects { OnOk result (OrderAdded order (rows_of self.old) (rows_of self.new)) }
    {
        self.check_order(order)?;
        self.insert(order.into());
        Ok(order.size)
    }

    /// Takes an order out, and answers the contracts left of it.
    pub fn take_out(&mut self, number: u32) -> Result<u32, Refusal>
        ensures answer { result ≡ take_out_answer number (rows_of self.old) }
        ensures table { rows_of self.new ≡ (if is_ok result then without_order number (rows_of self.old) else rows_of self.old) }
        ensures effects { IfOk result (λ left. OrderOut number left (rows_of self.old) (rows_of self.new)) }
    {
        if number == 0 {
            return Err(Refusal::NumberOutOfBounds);
        }
        let order = self.order(number).ok_or(Refusal::NothingStanding)?;
        self.rows.retain(|row| !row.is_order(number));
        Ok(order.left)
    }

    /// Takes the sides of a maker's quote out, and answers the contracts left of them.
    fn take_sides(&mut self, maker: u32) -> TakenBack
        ensures back { result ≡ left_of_quote maker (rows_of self.old) }
        ensures table { rows_of self.new ≡ without_quote maker (rows_of self.old) }
    {
        let left = |side| self.quote_side(maker, side).map_or(0, |row| row.left);
        let back = TakenBack {
            bids: left(Side::Buy),
            offers: left(Side::Sell),
        };
        self.rows.retain(|row| !row.is_quote_of(maker));
        back
    }

    /// Puts in the sides of a quote whose maker has none.
    fn put_quote(&mut self, maker: u32, quote: Quote)
        requires good { quote_cause maker quote ≡ None }
        requires fresh { AllByRecursion (λ x. is_quote_of maker x ≡ false) (rows_of self.old) }
        ensures { rows_of self.new ≡ quoted maker quote (rows_of self.old) }
    {
        if quote.bid > 0 {
            self.insert(Row::quoted(maker, Side::Buy, quote.bid, quote.bid_size));
        }
        self.insert(Row::quoted(maker, Side::Sell, quote.offer, quote.offer_size));
    }

    /// Replaces a maker's quote, and answers the contracts left of the former one.
    pub fn set_quote(&mut self, maker: u32, quote: Quote) -> Result<TakenBack, Refusal>
        ensures answer { result ≡ answered (quote_cause maker quote) (left_of_quote maker (rows_of self.old)) }
        ensures table { rows_of self.new ≡ (if is_ok result then quoted maker quote (rows_of self.old) else rows_of self.old) }
        ensures effects { IfOk result (λ back. QuoteSet maker quote back (rows_of self.old) (rows_of self.new)) }
    {
        check_quote(maker, quote)?;
        let back = self.take_sides(maker);
        self.put_quote(maker, quote);
        Ok(back)
    }

    /// Takes a maker's quote out, and answers the contracts left of it.
    pub fn take_quote_out(&mut self, maker: u32) -> Result<TakenBack, Refusal>
        ensures answer { result ≡ answered (quote_out_cause maker (rows_of self.old)) (left_of_quote maker (rows_of self.old)) }
        ensures table { rows_of self.new ≡ (if is_ok result then without_quote maker (rows_of self.old) else rows_of self.old) }
        ensures effects { IfOk result (λ back. QuoteOut maker back (rows_of self.old) (rows_of self.new)) }
    {
        self.check_quote_out(maker)?;
        Ok(self.take_sides(maker))
    }
}
