//! Making an auction.
ghost use Rattle.std.specs.Prelude.{[], IfOk};
ghost use Rattle.auction.specs.Auctions.{Reached, Made};

use crate::auction::Auction;
use book::book::Book;
use interest::Refusal;
use ladder::Ladder;
use sharing::SharingRule;
use stages::{Settings, Stage};

impl<L: Ladder, R: SharingRule> Auction<L, R> {
    /// An auction with no row, waiting; refused where a setting is out of its bounds.
    pub fn make(ladder: L, rule: R, settings: Settings) -> Result<Auction<L, R>, Refusal>
    where
        L: Drop,
        R: Drop,
        ensures made { Made ladder rule settings result }
        ensures run { IfOk result (Reached L.Ladder.permitted R.SharingRule.shares []) }
    {
        if !settings.in_bounds() {
            return Err(Refusal::SettingOutOfBounds);
        }
        Ok(Auction {
            ladder,
            rule,
            settings,
            book: Book::new(),
            stage: Stage::Waiting,
            last: 0,
        })
    }
}
