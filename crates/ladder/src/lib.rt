//! Ladders: the prices that interest may have, 100,000 among them.
#![tactic(auto)]

ghost use Rattle.std.specs.Prelude.{◌≡◌, ℕ, ◌≤◌, Bool, true, if◌then◌else◌, Some, None};
ghost use Rattle.interest.specs.Bounds.{priced};
ghost use Rattle.ladder.specs.Rungs.{least_at_or_above, greatest_at_or_below, Least, Greatest, stepped};
ghost use Rattle.std.proofs.Common.{rules};

use interest::is_price;

/// A set of permitted prices.
pub trait Ladder {
    ghost permitted: { Self → ℕ → Bool };

    /// Whether a price is permitted.
    fn permits(&self, price: u32) -> bool
        ensures { result ≡ permitted self.now price };

    /// The least permitted price at or above a price; none out of bounds.
    fn at_or_above(&self, price: u32) -> Option<u32>
        ensures answer { result ≡ least_at_or_above (permitted self.now) price }
        ensures least { priced price ≡ true → Least (permitted self.now) price result };

    /// The greatest permitted price at or below a price, or none; none out of bounds.
    fn at_or_below(&self, price: u32) -> Option<u32>
        ensures answer { result ≡ greatest_at_or_below (permitted self.now) price }
        ensures greatest { priced price ≡ true → Greatest (permitted self.now) price result };

    ghost top: { (s : Self) → permitted s 100000 ≡ true };

    ghost within: { (s : Self) (p : ℕ) → permitted s p ≡ true → (1 ≤ p) × (p ≤ 100000) };
}

/// The price, if it is one.
fn itself(price: u32) -> Option<u32>
    ensures { result ≡ (if priced price then Some price else None) }
{
    is_price(price).then_some(price)
}

/// Every price.
#[derive(Clone, Copy)]
pub struct EveryCent;

impl Ladder for EveryCent {
    ghost permitted = { λ _ p. priced p };

    ghost top = { Prim.search rules };

    ghost within = { Prim.search rules };

    fn permits(&self, price: u32) -> bool {
        is_price(price)
    }

    fn at_or_above(&self, price: u32) -> Option<u32> {
        itself(price)
    }

    fn at_or_below(&self, price: u32) -> Option<u32> {
        itself(price)
    }
}

/// Every cent below 300, and the multiples of 5 from there.
#[derive(Clone, Copy)]
pub struct Stepped;

impl Ladder for Stepped {
    ghost permitted = { λ _ p. stepped p };

    ghost top = { Prim.search rules };

    ghost within = { Prim.search rules };

    fn permits(&self, price: u32) -> bool {
        let on_step = price < 300 || price % 5 == 0;
        on_step && is_price(price)
    }

    fn at_or_above(&self, price: u32) -> Option<u32> {
        itself(price).map(|p| if p < 300 { p } else { p.next_multiple_of(5) })
    }

    fn at_or_below(&self, price: u32) -> Option<u32> {
        itself(price).map(|p| if p < 300 { p } else { p / 5 * 5 })
    }
}
