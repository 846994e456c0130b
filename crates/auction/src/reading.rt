//! What is read from an auction. Reading never refuses and changes nothing.
ghost use Rattle.std.specs.Prelude.{◌≡◌, ◌+◌, List};
ghost use Rattle.book.specs.Books.{rows_of};
ghost use Rattle.book.specs.Reads.{read_order, read_quote, totals_of};
ghost use Rattle.runs.specs.Histories.{Event, accepted, withdrawn};
ghost use Rattle.runs.specs.Laws.{Law, Shut};
ghost use Rattle.auction.specs.Auctions.{view, terms_of, Reached};

use crate::auction::Auction;
use book::row::{Reading, Row, Totals};
use interest::Side;
use ladder::Ladder;
use sharing::SharingRule;
use stages::Stage;

impl<L: Ladder, R: SharingRule> Auction<L, R> {
    /// What is told of an order that stands.
    pub fn read_order(&self, number: u32) -> Option<Reading>
        ensures { result ≡ read_order number (rows_of self.now.book) }
    {
        self.book.read_order(number)
    }

    /// What is told of one side of a maker's quote.
    pub fn read_quote(&self, maker: u32, side: Side) -> Option<Reading>
        ensures { result ≡ read_quote maker side (rows_of self.now.book) }
    {
        self.book.read_quote(maker, side)
    }

    /// The rows, in row order.
    pub fn rows(&self) -> &[Row]
        ensures { result.now ≡ rows_of self.now.book }
    {
        self.book.rows()
    }

    /// The stage, with its deadline and the extra messages left.
    pub fn stage(&self) -> Stage
        ensures { result ≡ self.now.stage }
    {
        self.stage
    }

    /// Where the contracts of a side are, by what reading its rows answers, added up. The law over whole runs stands here:
    /// it holds of every history that leads to this auction.
    pub fn totals(&self, side: Side) -> Totals
        ensures equation { result ≡ totals_of side (rows_of self.now.book) }
        ensures law { (h : List Event) → Reached L.Ladder.permitted R.SharingRule.shares h self.now → Law (terms_of L.Ladder.permitted R.SharingRule.shares self.now) h (view self.now) }
        ensures shut { Shut (terms_of L.Ladder.permitted R.SharingRule.shares self.now) (view self.now) }
        ensures balance { (h : List Event) → Reached L.Ladder.permitted R.SharingRule.shares h self.now → accepted side h ≡ withdrawn side h + (result.traded + result.routed + result.cancelled + result.left) }
    {
        self.book.totals(side)
    }
}
