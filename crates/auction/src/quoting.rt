//! Giving and pulling quotes.
ghost use Rattle.std.specs.Prelude.{◌≡◌, List, ◌∷◌, is_ok, IfOk, if◌then◌else◌};
ghost use Rattle.book.specs.Books.{rows_of};
ghost use Rattle.book.specs.Edits.{quoted, without_quote, answered};
ghost use Rattle.book.specs.Effects.{QuoteSet, QuoteOut};
ghost use Rattle.runs.specs.Steps.{permitted_quote, quote_cause, quote_answer, Quoted, pull_answer, Pulled};
ghost use Rattle.runs.specs.Histories.{Event};
ghost use Rattle.runs.specs.Histories.Event.{Quotes, Pulls};
ghost use Rattle.auction.specs.Auctions.{view, terms_of, Kept, Stays, Reached};

use crate::auction::Auction;
use book::row::{Quote, TakenBack};
use interest::{Refusal, is_maker};
use ladder::Ladder;
use ranges::is_valid;
use sharing::SharingRule;

/// Whether a ladder permits the prices of a quote; no bid is on every ladder.
fn permits_quote<L: Ladder>(ladder: &L, quote: Quote) -> bool
    ensures { result ≡ permitted_quote (L.Ladder.permitted ladder.now) quote }
{
    (quote.bid == 0 || ladder.permits(quote.bid)) && ladder.permits(quote.offer)
}

impl<L: Ladder, R: SharingRule> Auction<L, R> {
    /// Refuses a quote for the first cause that applies while the series is not open.
    fn check_quote(&self, maker: u32, quote: Quote) -> Result<(), Refusal>
        ensures { result ≡ answered (quote_cause (L.Ladder.permitted self.now.ladder) maker quote) tt }
    {
        if !is_maker(maker) {
            return Err(Refusal::NumberOutOfBounds);
        }
        if !quote.is_sized() {
            return Err(Refusal::SizeOutOfBounds);
        }
        if !permits_quote(&self.ladder, quote) {
            return Err(Refusal::PriceNotPermitted);
        }
        if quote.offer <= quote.bid {
            return Err(Refusal::BidNotBelowOffer);
        }
        if !is_valid(quote.bid, quote.offer) {
            return Err(Refusal::QuoteTooWide);
        }
        Ok(())
    }

    /// Sets a maker's quote in the table unless there is a cause to refuse it.
    fn set_quote(&mut self, maker: u32, quote: Quote) -> Result<TakenBack, Refusal>
        ensures answer { result ≡ quote_answer (terms_of L.Ladder.permitted R.SharingRule.shares self.old) (view self.old) maker quote }
        ensures rows { rows_of self.new.book ≡ (if is_ok result then quoted maker quote (rows_of self.old.book) else rows_of self.old.book) }
        ensures effects { IfOk result (λ back. QuoteSet maker quote back (rows_of self.old.book) (rows_of self.new.book)) }
        ensures stays { Stays self.old self.new }
    {
        self.still_shut()?;
        self.check_quote(maker, quote)?;
        self.book.set_quote(maker, quote)
    }

    /// Replaces a maker's quote, and answers the old contracts taken back on each side.
    pub fn quote(&mut self, maker: u32, quote: Quote) -> Result<TakenBack, Refusal>
        ensures step { Quoted (terms_of L.Ladder.permitted R.SharingRule.shares self.old) (view self.old) maker quote result (view self.new) }
        ensures kept { Kept self.old self.new }
        ensures run { (h : List Event) → Reached L.Ladder.permitted R.SharingRule.shares h self.old → Reached L.Ladder.permitted R.SharingRule.shares (Quotes maker quote result ∷ h) self.new }
    {
        self.set_quote(maker, quote)
    }

    /// Takes a maker's quote out of the table unless the series is open.
    fn take_quote(&mut self, maker: u32) -> Result<TakenBack, Refusal>
        ensures answer { result ≡ pull_answer (view self.old) maker }
        ensures rows { rows_of self.new.book ≡ (if is_ok result then without_quote maker (rows_of self.old.book) else rows_of self.old.book) }
        ensures effects { IfOk result (λ back. QuoteOut maker back (rows_of self.old.book) (rows_of self.new.book)) }
        ensures stays { Stays self.old self.new }
    {
        self.still_shut()?;
        self.book.take_quote_out(maker)
    }

    /// Removes a maker's quote, and answers the contracts taken back on each side.
    pub fn pull(&mut self, maker: u32) -> Result<TakenBack, Refusal>
        ensures step { Pulled (view self.old) maker result (view self.new) }
        ensures kept { Kept self.old self.new }
        ensures run { (h : List Event) → Reached L.Ladder.permitted R.SharingRule.shares h self.old → Reached L.Ladder.permitted R.SharingRule.shares (Pulls maker result ∷ h) self.new }
    {
        self.take_quote(maker)
    }
}
