//! Sharing among claims, the largest size first.
ghost use Rattle.std.specs.Prelude.{◌≡◌, ◌^◌, ◌<◌, ◌≤◌, [], cond, map, min, nat_le, sum};
ghost use Rattle.sharing.specs.ProRata.{part};
ghost use Rattle.sharing.specs.Ranked.{sizes_in, parts_in, claimed_in, ranked};

use crate::level::LEVEL_ROWS;
use crate::parts::Ratio;
use crate::sizes::Sizes;
use arrayvec::ArrayVec;

/// A size, and the part of a quantity that it claims.
#[derive(Clone, Copy, Default)]
pub(crate) struct Claim {
    size: u32,
    part: u32,
}

/// Claims on a quantity, in row order; together they fit a sum.
#[derive(Drop)]
pub(crate) struct Claims {
    given: u32,
    each: ArrayVec<Claim, LEVEL_ROWS>,
    ghost sizes: { sum (sizes_in each.items) ≤ 128000000 },
    ghost parts: { sum (parts_in each.items) ≤ 128000000 },
}

impl Claim {
    /// The part of a size that is `from` or larger, else 0.
    fn part_from(self, from: u32) -> u32
        ensures { result ≡ cond (nat_le from self.size) self.part 0 }
    {
        if from <= self.size { self.part } else { 0 }
    }
}

/// The parts of the claims whose size is `from` or larger.
// This runs twice for each row of a level: a sum of all, some of them 0, takes several claims at a time, a filter none.
fn claimed_from(from: u32, claims: &[Claim]) -> u32
    requires { sum (parts_in claims.now) < 2 ^ 32 }
    ensures { result ≡ claimed_in from claims.now }
{
    claims.iter().map(|claim| claim.part_from(from)).sum()
}

/// Each size with its part of what is given.
fn claims_of(ratio: Ratio, sizes: &Sizes) -> ArrayVec<Claim, LEVEL_ROWS>
    ensures sizes { sizes_in result.items ≡ sizes.now.each.items }
    ensures parts { parts_in result.items ≡ map (part ratio.given ratio.whole) sizes.now.each.items }
{
    let mut each = ArrayVec::new();
    for size in sizes.each.iter() {
        let size = *size;
        each.push(Claim {
            size,
            part: ratio.part(size),
        });
    }
    each
}

impl Claims {
    /// Of a quantity, or of the whole if that is less, each size claims its part.
    pub(crate) fn on(quantity: u32, sizes: &Sizes) -> Claims
        ensures given { result.given ≡ min quantity sizes.now.whole }
        ensures sizes { sizes_in result.each.items ≡ sizes.now.each.items }
        ensures parts { parts_in result.each.items ≡ map (part (min quantity sizes.now.whole) sizes.now.whole) sizes.now.each.items }
    {
        let ratio = Ratio::of(quantity, sizes.whole);
        Claims {
            given: ratio.given,
            each: claims_of(ratio, sizes),
        }
    }

    /// Each claim gets its part, or what is left of the quantity once those before it have theirs.
    pub(crate) fn by_rank(&self) -> ArrayVec<u32, LEVEL_ROWS>
        ensures { result.items ≡ ranked self.now.given [] self.now.each.items }
    {
        let claims = self.each.as_slice();
        let mut shares = ArrayVec::new();
        for (i, claim) in claims.iter().enumerate() {
            let earlier = claimed_from(claim.size, &claims[..i]);
            let later = claimed_from(claim.size + 1, &claims[i + 1..]);
            let left = self.given.saturating_sub(earlier + later);
            shares.push(claim.part.min(left));
        }
        shares
    }
}
