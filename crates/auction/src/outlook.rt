//! What the next tick would find.
ghost use Rattle.std.specs.Prelude.{◌≡◌};
ghost use Rattle.book.specs.Books.{rows_of};
ghost use Rattle.ranges.specs.Ranges.{quick_range};
ghost use Rattle.pricing.specs.declared.figures.Mode.TheVariants.{Exchange as ExchangeMode, Routing as RoutingMode};
ghost use Rattle.pricing.specs.Scenes.{scene, scene_of, chosen_in};
ghost use Rattle.stages.specs.Looks.{quotes_of, away_of, range_of};

use crate::auction::Auction;
use ladder::Ladder;
use market::ShownMarket;
use pricing::figures::Mode;
use pricing::scene::Scene;
use pricing::search::Choice;
use ranges::{Quotes, Range};
use sharing::SharingRule;
use stages::openings::best_prices;

/// The best prices of the quotes, the quick range if there is one, the opening range, and both choices in it.
#[derive(Clone, Copy, PartialEq, Eq, Debug)]
pub struct Outlook {
    pub quotes: Quotes,
    pub quick: Option<Range>,
    pub opening: Range,
    pub exchange: Option<Choice>,
    pub routing: Option<Choice>,
}

impl<L: Ladder, R: SharingRule> Auction<L, R> {
    /// What a price is looked for in, beside an away market.
    pub(crate) fn scene<'a, M: ShownMarket>(&'a self, market: &'a M) -> Scene<'a, L, M>
        ensures { scene_of L.Ladder.permitted M.ShownMarket.shown result ≡ scene (L.Ladder.permitted self.now.ladder) self.now.settings.close (rows_of self.now.book) (M.ShownMarket.shown market.now) }
    {
        Scene {
            ladder: &self.ladder,
            close: self.settings.close,
            book: &self.book,
            market,
        }
    }

    /// What the next tick would find beside that away market.
    pub fn outlook<M: ShownMarket>(&self, market: &M) -> Outlook
        ensures quotes { result.quotes ≡ quotes_of (rows_of self.now.book) }
        ensures quick { result.quick ≡ quick_range (quotes_of (rows_of self.now.book)) (away_of (M.ShownMarket.shown market.now)) }
        ensures opening { result.opening ≡ range_of (rows_of self.now.book) (M.ShownMarket.shown market.now) }
        ensures exchange { result.exchange ≡ chosen_in (scene (L.Ladder.permitted self.now.ladder) self.now.settings.close (rows_of self.now.book) (M.ShownMarket.shown market.now)) ExchangeMode result.opening }
        ensures routing { result.routing ≡ chosen_in (scene (L.Ladder.permitted self.now.ladder) self.now.settings.close (rows_of self.now.book) (M.ShownMarket.shown market.now)) RoutingMode result.opening }
    {
        let best = best_prices(&self.book, market);
        let opening = best.opening_range();
        let scene = self.scene(market);
        Outlook {
            quotes: best.quotes,
            quick: best.quick_range(),
            opening,
            exchange: scene.choose(Mode::Exchange, opening),
            routing: scene.choose(Mode::Routing, opening),
        }
    }
}
