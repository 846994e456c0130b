//! The interface of a sharing rule.
ghost use Rattle.std.specs.Prelude.{◌≡◌, ℕ, min, List, length};
ghost use Rattle.sharing.specs.declared.level.Holding.{Holding};
ghost use Rattle.sharing.specs.Levels.{rows_of};
ghost use Rattle.sharing.specs.Totals.{total, contracts, EachAtMost};

use crate::level::{LEVEL_ROWS, Level};
use arrayvec::ArrayVec;

/// How a quantity is divided among the rows of a level.
pub trait SharingRule {
    // The share of each row, in row order.
    ghost shares: { Self → ℕ → List Holding → List ℕ };

    /// The shares of the level's rows, in their order.
    fn share(&self, quantity: u32, level: &Level) -> ArrayVec<u32, LEVEL_ROWS>
        ensures { result.items ≡ shares self.now quantity (rows_of level.now) };

    // One share a row.
    ghost each: { (x : Self) (q : ℕ) (rows : List Holding) → length (shares x q rows) ≡ length rows };

    // No share above its row's size.
    ghost within: { (x : Self) (q : ℕ) (rows : List Holding) → EachAtMost (shares x q rows) (contracts rows) };

    // Together the smaller of the quantity and the level's total.
    ghost whole: { (x : Self) (q : ℕ) (rows : List Holding) → total (shares x q rows) ≡ min q (total (contracts rows)) };
}
