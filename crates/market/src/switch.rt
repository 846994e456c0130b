//! A market that is firm or not; while not, it shows and sends nothing.
ghost use Rattle.std.specs.Prelude.{◌≡◌, ℕ, ◌-◌, ◌≤◌, false, if◌then◌else◌};
ghost use Rattle.interest.specs.Sides.{opposite};
ghost use Rattle.market.specs.Counts.{counted};
ghost use Rattle.std.proofs.Common.{rules};

use crate::{Market, ShownMarket};
use interest::Side;

#[derive(Drop)]
pub struct FirmSwitch<M> {
    pub firm: bool,
    pub market: M,
}

impl<M: ShownMarket> ShownMarket for FirmSwitch<M> {
    ghost shown = { λ s d p. (if s.firm then M.ShownMarket.shown s.market d p else 0) };

    ghost worsens = { Prim.search rules };

    ghost edge = { Prim.search rules };

    fn best(&self, side: Side) -> Option<u32> {
        if self.firm {
            self.market.best(side)
        } else {
            None
        }
    }

    fn count(&self, side: Side, price: u32, n: u32) -> u32 {
        if self.firm {
            self.market.count(side, price, n)
        } else {
            0
        }
    }
}

impl<M: Market> Market for FirmSwitch<M> {
    ghost leaves = { λ _ _ _ _ s t. (t.firm ≡ s.firm) × (s.firm ≡ false → t ≡ s) };

    fn send(&mut self, side: Side, price: u32, n: u32) -> u32 {
        if !self.firm {
            return 0;
        }
        self.market.send(side, price, n)
    }
}
