//! The permitted prices of a range.
ghost use Rattle.std.specs.Prelude.{◌≡◌, ℕ, ◌-◌, ◌≤◌, min, max};
ghost use Rattle.std.specs.Iterator.{at_most};
ghost use Rattle.pricing.specs.Steps.{Steps};

use interest::TOP_PRICE;
use ladder::Ladder;
use ranges::Range;

/// The permitted prices of a ladder from `at` to `top`, the lowest first.
#[derive(Drop)]
pub(crate) struct Rungs<'a, L: Ladder> {
    ladder: &'a L,
    at: u32,
    top: u32,
    ghost prices: { (1 ≤ at) × (top ≤ 100000) },
}

impl<'a, L: Ladder> Rungs<'a, L> {
    /// Those of a range, whatever its ends are.
    pub(crate) fn new(ladder: &'a L, range: Range) -> Rungs<'a, L>
        ensures ladder { result.ladder.now ≡ ladder.now }
        ensures at { result.at ≡ max range.low 1 }
        ensures top { result.top ≡ min range.high 100000 }
    {
        Rungs {
            ladder,
            at: range.low.max(1),
            top: range.high.min(TOP_PRICE),
        }
    }
}

impl<L: Ladder> Iterator for Rungs<'_, L> {
    type Item = u32;

    ghost next_gives = { λ s r t. (t.ladder.now ≡ s.ladder.now) × (t.top ≡ s.top) × Steps (L.Ladder.permitted s.ladder.now) s.at s.top r t.at };

    ghost remaining = { λ s. at_most (100001 - s.at) };

    fn next(&mut self) -> Option<u32> {
        if self.top < self.at {
            return None;
        }
        let price = self.ladder.at_or_above(self.at)?;
        if self.top < price {
            return None;
        }
        self.at = price + 1;
        Some(price)
    }
}
