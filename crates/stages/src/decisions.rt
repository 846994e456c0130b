//! What a tick decides in each stage.
ghost use Rattle.std.specs.Prelude.{◌≡◌};
ghost use Rattle.book.specs.Books.{rows_of};
ghost use Rattle.pricing.specs.Scenes.{scene_of};
ghost use Rattle.stages.specs.Messages.{message_of};
ghost use Rattle.stages.specs.Looks.{range_of, routing_choice, quoted_choice, exchange_opening, at_once};
ghost use Rattle.stages.specs.Decisions.{opens_or, last_call};
ghost use Rattle.stages.specs.declared.stage.Decision.TheVariants.{Hold, Tell};

use crate::messages::message_on;
use crate::openings::{
    at_once, exchange_opening, forced_opening, opening_cleanly, quoted_choice, range_of,
    routing_choice,
};
use crate::stage::Decision;
use clearing::{Kind, Opening};
use ladder::Ladder;
use market::ShownMarket;
use pricing::scene::Scene;
use pricing::search::Choice;
use ranges::Range;

/// An opening, or else another decision. Where that has to be looked for, a match looks only if nothing opens.
fn opens_or(opening: Option<Opening>, other: Decision) -> Decision
    ensures { result ≡ opens_or opening other }
{
    opening.map_or(other, Decision::Open)
}

/// Waiting: a plain or a quick opening, else message 1.
pub fn open_at_once<L: Ladder, M: ShownMarket>(scene: &Scene<L, M>) -> Decision
    ensures { result ≡ opens_or (at_once (scene_of L.Ladder.permitted M.ShownMarket.shown scene.now)) (Tell (message_of 1 (quoted_choice (scene_of L.Ladder.permitted M.ShownMarket.shown scene.now)))) }
{
    match at_once(scene) {
        Some(opening) => Decision::Open(opening),
        None => Decision::Tell(message_on(1, quoted_choice(scene))),
    }
}

/// Before a deadline: an exchange-only opening, else nothing.
pub fn open_or_hold<L: Ladder, M: ShownMarket>(scene: &Scene<L, M>) -> Decision
    ensures { result ≡ opens_or (exchange_opening (scene_of L.Ladder.permitted M.ShownMarket.shown scene.now)) Hold }
{
    opens_or(exchange_opening(scene), Decision::Hold)
}

/// From the deadline of gathering: an exchange-only opening, else message 2.
pub fn open_or_route<L: Ladder, M: ShownMarket>(scene: &Scene<L, M>) -> Decision
    ensures { result ≡ opens_or (exchange_opening (scene_of L.Ladder.permitted M.ShownMarket.shown scene.now)) (Tell (message_of 2 (routing_choice (scene_of L.Ladder.permitted M.ShownMarket.shown scene.now)))) }
{
    match exchange_opening(scene) {
        Some(opening) => Decision::Open(opening),
        None => Decision::Tell(message_on(2, routing_choice(scene))),
    }
}

/// By the routing choice: a routed opening, the next message while extra ones are left, or a forced opening.
fn call_on(extra: u32, left: u32, range: Range, choice: Option<Choice>) -> Decision
    ensures { result ≡ last_call extra left range choice }
{
    let other = if left == 0 {
        Decision::Open(forced_opening(range, choice))
    } else {
        let sent = u64::from(extra.saturating_sub(left));
        Decision::Tell(message_on(3 + sent, choice))
    };
    opens_or(opening_cleanly(Kind::Routed, range, choice), other)
}

/// From the deadline of routing and of each extra stage, with so many of the extra messages left.
pub fn open_or_call<L: Ladder, M: ShownMarket>(
    scene: &Scene<L, M>,
    extra: u32,
    left: u32,
) -> Decision
    ensures { result ≡ opens_or (exchange_opening (scene_of L.Ladder.permitted M.ShownMarket.shown scene.now)) (last_call extra left (range_of (rows_of scene.now.book.now) (M.ShownMarket.shown scene.now.market.now)) (routing_choice (scene_of L.Ladder.permitted M.ShownMarket.shown scene.now))) }
{
    match exchange_opening(scene) {
        Some(exchange) => Decision::Open(exchange),
        None => {
            let range = range_of(scene.book, scene.market);
            call_on(extra, left, range, routing_choice(scene))
        }
    }
}
