//! Two markets as one.
ghost use Rattle.std.specs.Prelude.{◌≡◌, ℕ, ◌+◌, ◌-◌, ◌≤◌};
ghost use Rattle.interest.specs.Sides.{opposite};
ghost use Rattle.interest.specs.declared.Side.{Side};
ghost use Rattle.market.specs.Counts.{counted};
ghost use Rattle.market.specs.Pairs.{together, Split};
ghost use Rattle.std.proofs.Common.{rules};

use crate::{Market, ShownMarket, better, reached};
use interest::{Side, is_price};

#[derive(Drop)]
pub struct Pair<A, B> {
    pub first: A,
    pub second: B,
}

impl<A: ShownMarket, B: ShownMarket> ShownMarket for Pair<A, B> {
    ghost shown = { λ s. together (A.ShownMarket.shown s.first) (B.ShownMarket.shown s.second) };

    ghost worsens = { Prim.search rules };

    ghost edge = { Prim.search rules };

    fn best(&self, side: Side) -> Option<u32> {
        better(side, self.first.best(side), self.second.best(side))
    }

    fn count(&self, side: Side, price: u32, n: u32) -> u32 {
        let m = self.first.count(side, price, n);
        m + self.second.count(side, price, n - m)
    }
}

impl<A: Market, B: Market> Market for Pair<A, B> {
    ghost leaves = { λ d _ _ m s t. Split d (A.ShownMarket.shown s.first d) (B.ShownMarket.shown s.second d) (A.ShownMarket.shown t.first d) (B.ShownMarket.shown t.second d) m };

    // Level by level, the best first; at each, the first market before the second.
    fn send(&mut self, side: Side, price: u32, n: u32) -> u32 {
        if !is_price(price) {
            return 0;
        }
        let mut left = n;
        while left > 0
            && let Some(level) = self.best(side)
            && reached(side, level, price)
        {
            left -= self.first.send(side, level, left);
            left -= self.second.send(side, level, left);
        }
        n - left
    }
}

/// The same three markets, the first two as a pair. It shows the same.
pub fn nest_left<A: ShownMarket, B: ShownMarket, C: ShownMarket>(
    pair: Pair<A, Pair<B, C>>,
) -> Pair<Pair<A, B>, C>
    ensures parts { (result.first.first ≡ pair.first) × (result.first.second ≡ pair.second.first) × (result.second ≡ pair.second.second) }
    ensures counts { (d : Side) (p : ℕ) → together (together (A.ShownMarket.shown result.first.first) (B.ShownMarket.shown result.first.second)) (C.ShownMarket.shown result.second) d p ≡ together (A.ShownMarket.shown pair.first) (together (B.ShownMarket.shown pair.second.first) (C.ShownMarket.shown pair.second.second)) d p }
{
    Pair {
        first: Pair {
            first: pair.first,
            second: pair.second.first,
        },
        second: pair.second.second,
    }
}

/// The same three markets, the last two as a pair. It shows the same.
pub fn nest_right<A: ShownMarket, B: ShownMarket, C: ShownMarket>(
    pair: Pair<Pair<A, B>, C>,
) -> Pair<A, Pair<B, C>>
    ensures parts { (result.first ≡ pair.first.first) × (result.second.first ≡ pair.first.second) × (result.second.second ≡ pair.second) }
    ensures counts { (d : Side) (p : ℕ) → together (A.ShownMarket.shown result.first) (together (B.ShownMarket.shown result.second.first) (C.ShownMarket.shown result.second.second)) d p ≡ together (together (A.ShownMarket.shown pair.first.first) (B.ShownMarket.shown pair.first.second)) (C.ShownMarket.shown pair.second) d p }
{
    Pair {
        first: pair.first.first,
        second: Pair {
            first: pair.first.second,
            second: pair.second,
        },
    }
}
