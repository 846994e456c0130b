//! The passing of time: what a tick decides, and how the auction moves from stage to stage.
ghost use Rattle.std.specs.Prelude.{◌≡◌, ℕ, List, ◌∷◌, is_ok, if◌then◌else◌, Option as OptionOf};
ghost use Rattle.interest.specs.declared.Side.{Side as SideOf};
ghost use Rattle.book.specs.Books.{rows_of};
ghost use Rattle.book.specs.Edits.{answered};
ghost use Rattle.clearing.specs.Openings.{CountsLeft};
ghost use Rattle.stages.specs.Stages.{due, next_stage};
ghost use Rattle.pricing.specs.Scenes.{scene};
ghost use Rattle.stages.specs.Decisions.{decision_by};
ghost use Rattle.runs.specs.Ticks.{tick_cause, tick_of, decision_at, rows_by, told_by, CarriedBy, Ticked};
ghost use Rattle.runs.specs.Histories.{Event};
ghost use Rattle.runs.specs.Histories.Event.{Ticks};
ghost use Rattle.auction.specs.Auctions.{view, terms_of, Kept, Reached};
ghost use Rattle.auction.specs.Acts.{stage_acted};

use crate::auction::Auction;
use clearing::carry_out;
use interest::Refusal;
use ladder::Ladder;
use market::{Market, ShownMarket};
use sharing::SharingRule;
use stages::decisions::{open_at_once, open_or_call, open_or_hold, open_or_route};
use stages::waits::check_ready;
use stages::{Decision, Moment, Stage, TickAnswer};

/// The last time of a day, in milliseconds after midnight.
const DAY_ENDS: u32 = 86_400_000;

impl<L: Ladder, R: SharingRule> Auction<L, R> {
    /// Takes the time of a tick unless there is a cause to refuse it.
    fn admit(&mut self, moment: Moment) -> Result<(), Refusal>
        ensures cause { result ≡ answered (tick_cause (view self.old) moment.time moment.underlying) tt }
        ensures clock { self.new.last ≡ (if is_ok result then moment.time else self.old.last) }
        ensures stage { self.new.stage ≡ self.old.stage }
        ensures book { self.new.book ≡ self.old.book }
        ensures kept { Kept self.old self.new }
    {
        self.still_shut()?;
        if !(self.last..=DAY_ENDS).contains(&moment.time) || moment.opens_later() {
            return Err(Refusal::TimeOutOfBounds);
        }
        self.last = moment.time;
        Ok(())
    }

    /// What is decided where no reason to wait applies: by the stage that the tick finds and whether its deadline has come.
    fn decide<M: ShownMarket>(&self, time: u32, market: &M) -> Decision
        ensures { result ≡ decision_by self.now.settings (scene (L.Ladder.permitted self.now.ladder) self.now.settings.close (rows_of self.now.book) (M.ShownMarket.shown market.now)) self.now.stage (due self.now.stage time) }
    {
        let scene = self.scene(market);
        match (self.stage, self.stage.is_due(time)) {
            (Stage::Waiting, _) => open_at_once(&scene),
            (Stage::Open, _) => Decision::Hold,
            (_, false) => open_or_hold(&scene),
            (Stage::Gathering { .. }, true) => open_or_route(&scene),
            (Stage::Routing { left, .. } | Stage::Extra { left, .. }, true) => {
                open_or_call(&scene, self.settings.extra, left)
            }
        }
    }

    /// What a tick that is not refused decides.
    fn decision<M: ShownMarket>(&self, moment: Moment, market: &M) -> Decision
        ensures { (after : SideOf → ℕ → ℕ) → result ≡ decision_at (terms_of L.Ladder.permitted R.SharingRule.shares self.now) (view self.now) (tick_of moment.time moment.underlying (M.ShownMarket.shown market.now) after) }
    {
        match check_ready(self.settings, &self.book, market, moment) {
            Ok(()) => self.decide(moment.time, market),
            Err(reason) => Decision::Wait(reason),
        }
    }

    /// The stage to which a message moves the auction: from waiting to gathering, on to routing, and through the extra ones.
    fn next_stage(&self, time: u32) -> Stage
        ensures { result ≡ next_stage self.now.settings time self.now.stage }
    {
        let gathered = u64::from(time) + u64::from(self.settings.imbalance);
        let routed = u64::from(time) + u64::from(self.settings.route);
        match self.stage {
            Stage::Waiting => Stage::Gathering {
                deadline: gathered,
                left: self.settings.extra,
            },
            Stage::Gathering { left, .. } => Stage::Routing {
                deadline: routed,
                left,
            },
            Stage::Routing { left, .. } | Stage::Extra { left, .. } => Stage::Extra {
                deadline: gathered,
                left: left.saturating_sub(1),
            },
            Stage::Open => Stage::Open,
        }
    }

    /// Does what was decided.
    fn act<M: Market>(&mut self, decision: Decision, time: u32, market: &mut M) -> TickAnswer
        ensures answer { result ≡ told_by decision (rows_of self.new.book) }
        ensures rows { rows_of self.new.book ≡ rows_by (terms_of L.Ladder.permitted R.SharingRule.shares self.old) (M.ShownMarket.shown market.old) decision (rows_of self.old.book) }
        ensures stage { self.new.stage ≡ stage_acted self.old.settings time decision self.old.stage }
        ensures last { self.new.last ≡ self.old.last }
        ensures kept { Kept self.old self.new }
        ensures counts { CountsLeft (M.ShownMarket.shown market.old) (M.ShownMarket.shown market.new) (rows_of self.old.book) (rows_of self.new.book) }
        ensures carried { (opened : OptionOf ℕ) → CarriedBy decision (tick_of time opened (M.ShownMarket.shown market.old) (M.ShownMarket.shown market.new)) (rows_of self.old.book) (rows_of self.new.book) }
    {
        match decision {
            Decision::Wait(reason) => {
                self.stage = Stage::Waiting;
                TickAnswer::Waits(reason)
            }
            Decision::Hold => TickAnswer::Holds,
            Decision::Tell(message) => {
                self.stage = self.next_stage(time);
                TickAnswer::Message(message)
            }
            Decision::Open(opening) => {
                self.stage = Stage::Open;
                TickAnswer::Opened(carry_out(
                    &mut self.book,
                    &self.ladder,
                    &self.rule,
                    market,
                    opening,
                ))
            }
        }
    }

    /// Tells the auction the time, when the underlying opened, if it has, and the away market.
    pub fn tick<M: Market>(
        &mut self,
        time: u32,
        underlying: Option<u32>,
        market: &mut M,
    ) -> Result<TickAnswer, Refusal>
        ensures step { Ticked (terms_of L.Ladder.permitted R.SharingRule.shares self.old) (view self.old) (tick_of time underlying (M.ShownMarket.shown market.old) (M.ShownMarket.shown market.new)) result (view self.new) }
        ensures kept { Kept self.old self.new }
        ensures run { (h : List Event) → Reached L.Ladder.permitted R.SharingRule.shares h self.old → Reached L.Ladder.permitted R.SharingRule.shares (Ticks (tick_of time underlying (M.ShownMarket.shown market.old) (M.ShownMarket.shown market.new)) result ∷ h) self.new }
    {
        let moment = Moment { time, underlying };
        self.admit(moment)?;
        let decision = self.decision(moment, market);
        Ok(self.act(decision, time, market))
    }
}
