//! Markets: what is shown on each side at each price, and what a send takes of it.
//! Bids are a market's buy side, offers its sell side.
#![tactic(auto)]

ghost use Rattle.std.specs.Prelude.{◌≡◌, ℕ, ◌≤◌};
ghost use Rattle.interest.specs.Sides.{opposite};
ghost use Rattle.interest.specs.declared.Side.{Side};
ghost use Rattle.market.specs.Counts.{AsGood, beyond, counted, TakenFrom, SameCounts, best_of, Best, reaches, better_of};

use interest::Side;

pub mod depth;
pub mod pair;
pub mod sending;
pub mod single;
pub mod switch;
#[cfg(test)]
mod tests;

/// A market that shows contracts and can be asked.
pub trait ShownMarket {
    /// The contracts shown on a side at a price or better. Outside 1 to 100,000 nothing is asked of it but the laws.
    ghost shown: { Self → Side → ℕ → ℕ };

    /// The best price of a side: where its count first reaches 1.
    fn best(&self, side: Side) -> Option<u32>
        ensures answer { result ≡ best_of side (shown self.now side) }
        ensures first { Best side (shown self.now side) result };

    /// The smaller of `n` and the count at a price; 0 out of bounds.
    fn count(&self, side: Side, price: u32, n: u32) -> u32
        ensures answer { result ≡ counted (shown self.now side) price n }
        ensures few { result ≤ n };

    ghost worsens: { (s : Self) (d : Side) (p q : ℕ) → AsGood d p q → shown s d p ≤ shown s d q };

    ghost edge: { (s : Self) (d : Side) → shown s d (beyond d) ≡ 0 };
}

/// A shown market that can be sent to.
pub trait Market: ShownMarket {
    /// What else a send leaves, by the side, the price, what was asked and what was taken, and the market before and after.
    ghost leaves: { Side → ℕ → ℕ → ℕ → Self → Self → Type 0 } = { λ _ _ _ _ _ _. Unit {0} };

    /// Takes up to `n` of the contracts shown at a price or better, the best first, and answers how many; none out of bounds.
    fn send(&mut self, side: Side, price: u32, n: u32) -> u32
        ensures answer { result ≡ counted (Self.ShownMarket.shown self.old side) price n }
        ensures few { result ≤ n }
        ensures taken { TakenFrom (Self.ShownMarket.shown self.old side) result (Self.ShownMarket.shown self.new side) }
        ensures stays { SameCounts (Self.ShownMarket.shown self.old (opposite side)) (Self.ShownMarket.shown self.new (opposite side)) }
        ensures left { leaves side price n result self.old self.new };
}

/// Whether a contract shown at one price can be had at another.
pub fn reached(side: Side, shown_at: u32, price: u32) -> bool
    ensures { result ≡ reaches side shown_at price }
{
    match side {
        Side::Buy => price <= shown_at,
        Side::Sell => shown_at <= price,
    }
}

/// The better of two prices of a side, where there are any; the first where they are equal.
pub fn better(side: Side, a: Option<u32>, b: Option<u32>) -> Option<u32>
    ensures { result ≡ better_of side a b }
{
    match (a, b) {
        (Some(x), Some(y)) => Some(if reached(side, x, y) { x } else { y }),
        _ => a.or(b),
    }
}
