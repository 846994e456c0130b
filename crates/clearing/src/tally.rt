//! What the rows of a side come to.
ghost use Rattle.std.specs.Prelude.{◌≡◌};
ghost use Rattle.book.specs.Books.{rows_of};
ghost use Rattle.clearing.specs.Reports.{side_report, price_shown};

use crate::opening::SideReport;
use book::book::Book;
use book::row::Row;
use interest::Side;
use market::better;

// The price that a row is shown at; a row that is not shown holds 0.
fn price_shown(row: &Row) -> Option<u32>
    ensures { result ≡ price_shown row.now }
{
    (0 < row.shown).then_some(row.shown)
}

pub(crate) fn tally(book: &Book, side: Side) -> SideReport
    ensures { result ≡ side_report side (rows_of book.now) }
{
    let mut routed = 0;
    let mut cancelled = 0;
    let mut best = None;
    for row in book.rows() {
        if row.side == side {
            routed += row.routed;
            cancelled += row.cancelled;
            best = better(side, best, price_shown(row));
        }
    }
    SideReport {
        routed,
        cancelled,
        best,
    }
}
