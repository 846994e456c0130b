//! The auction itself. It has no ghost field: what its rows keep to is the book's, and so the definitions that name an auction
//! can be cited by its calls.
ghost use Rattle.std.specs.Prelude.{◌≡◌, Ok};
ghost use Rattle.runs.specs.Steps.{unless_open};
ghost use Rattle.auction.specs.Auctions.{view};

use book::book::Book;
use interest::Refusal;
use ladder::Ladder;
use sharing::SharingRule;
use stages::{Settings, Stage};

/// The table of rows of a series, its stage, and the time of the last accepted tick, 0 before the first.
#[derive(Drop)]
pub struct Auction<L: Ladder, R: SharingRule> {
    pub(crate) ladder: L,
    pub(crate) rule: R,
    pub(crate) settings: Settings,
    pub(crate) book: Book,
    pub(crate) stage: Stage,
    pub(crate) last: u32,
}

impl<L: Ladder, R: SharingRule> Auction<L, R> {
    /// Refuses whatever comes once the series is open.
    pub(crate) fn still_shut(&self) -> Result<(), Refusal>
        ensures { result ≡ unless_open (view self.now) (Ok tt) }
    {
        if self.stage.is_open() {
            return Err(Refusal::SeriesOpen);
        }
        Ok(())
    }
}
