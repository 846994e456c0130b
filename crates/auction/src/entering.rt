//! Entering and withdrawing orders.
ghost use Rattle.std.specs.Prelude.{◌≡◌, List, ◌∷◌, is_ok, IfOk, if◌then◌else◌, OnOk};
ghost use Rattle.book.specs.Books.{rows_of};
ghost use Rattle.book.specs.Edits.{added, without_order, answered};
ghost use Rattle.book.specs.Effects.{OrderAdded, OrderOut};
ghost use Rattle.runs.specs.Steps.{permitted_limit, enter_answer, Entered, withdraw_answer, Withdrew};
ghost use Rattle.runs.specs.Histories.{Event};
ghost use Rattle.runs.specs.Histories.Event.{Enters, Withdraws};
ghost use Rattle.auction.specs.Auctions.{view, terms_of, Kept, Stays, Reached};
ghost use Rattle.auction.specs.Acts.{order_cause};

use crate::auction::Auction;
use book::row::Order;
use interest::{Limit, Refusal, is_size};
use ladder::Ladder;
use sharing::SharingRule;

/// Whether a ladder permits a limit; market is on every ladder.
fn permits_limit<L: Ladder>(ladder: &L, limit: Limit) -> bool
    ensures { result ≡ permitted_limit (L.Ladder.permitted ladder.now) limit }
{
    match limit {
        Limit::Market => true,
        Limit::At(price) => ladder.permits(price),
    }
}

impl<L: Ladder, R: SharingRule> Auction<L, R> {
    /// Refuses an order for its number, its size or its limit, in this order; the book refuses it for what stands.
    fn check_order(&self, order: Order) -> Result<(), Refusal>
        ensures { result ≡ answered (order_cause (L.Ladder.permitted self.now.ladder) order) tt }
    {
        if order.number == 0 {
            return Err(Refusal::NumberOutOfBounds);
        }
        if !is_size(order.size) {
            return Err(Refusal::SizeOutOfBounds);
        }
        if !permits_limit(&self.ladder, order.limit) {
            return Err(Refusal::PriceNotPermitted);
        }
        Ok(())
    }

    /// Adds an order to the table unless there is a cause to refuse it.
    fn add_order(&mut self, order: Order) -> Result<u32, Refusal>
        ensures answer { result ≡ enter_answer (terms_of L.Ladder.permitted R.SharingRule.shares self.old) (view self.old) order }
        ensures rows { rows_of self.new.book ≡ (if is_ok result then added order (rows_of self.old.book) else rows_of self.old.book) }
        ensures effects { OnOk result (OrderAdded order (rows_of self.old.book) (rows_of self.new.book)) }
        ensures stays { Stays self.old self.new }
    {
        self.still_shut()?;
        self.check_order(order)?;
        self.book.add(order)
    }

    /// Enters an order, and answers the size accepted.
    pub fn enter(&mut self, order: Order) -> Result<u32, Refusal>
        ensures step { Entered (terms_of L.Ladder.permitted R.SharingRule.shares self.old) (view self.old) order result (view self.new) }
        ensures kept { Kept self.old self.new }
        ensures run { (h : List Event) → Reached L.Ladder.permitted R.SharingRule.shares h self.old → Reached L.Ladder.permitted R.SharingRule.shares (Enters order result ∷ h) self.new }
    {
        self.add_order(order)
    }

    /// Takes an order out of the table unless the series is open.
    fn take_order(&mut self, number: u32) -> Result<u32, Refusal>
        ensures answer { result ≡ withdraw_answer (view self.old) number }
        ensures rows { rows_of self.new.book ≡ (if is_ok result then without_order number (rows_of self.old.book) else rows_of self.old.book) }
        ensures effects { IfOk result (λ left. OrderOut number left (rows_of self.old.book) (rows_of self.new.book)) }
        ensures stays { Stays self.old self.new }
    {
        self.still_shut()?;
        self.book.take_out(number)
    }

    /// Takes an order back, and answers its contracts.
    pub fn withdraw(&mut self, number: u32) -> Result<u32, Refusal>
        ensures step { Withdrew (view self.old) number result (view self.new) }
        ensures kept { Kept self.old self.new }
        ensures run { (h : List Event) → Reached L.Ladder.permitted R.SharingRule.shares h self.old → Reached L.Ladder.permitted R.SharingRule.shares (Withdraws number result ∷ h) self.new }
    {
        self.take_order(number)
    }
}
