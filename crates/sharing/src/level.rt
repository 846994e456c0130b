//! The rows of a price level, and what a level takes.
ghost use Rattle.std.specs.Prelude.{◌≡◌, true};
ghost use Rattle.sharing.specs.Holdings.{all_sized};

use arrayvec::{ArrayVec, CapacityError};
use interest::Class;

/// How many rows a level has at most.
pub const LEVEL_ROWS: usize = 128;

/// One row of a price level: its class, and the contracts left of it.
#[derive(Clone, Copy, PartialEq, Eq, Debug)]
pub struct Holding {
    pub class: Class,
    pub size: u32,
}

/// What fills the places of a level that no row has; written out, as a class has no default.
impl Default for Holding {
    ghost use Rattle.sharing.specs.Holdings.{no_row};

    ghost is_default = { λ holding. holding ≡ no_row };

    fn default() -> Holding {
        Holding {
            class: Class::Other,
            size: 0,
        }
    }
}

/// Why a level does not take a row.
#[derive(Clone, Copy, PartialEq, Eq, Debug)]
pub enum PushError {
    SizeOutOfBounds,
    LevelFull,
}

impl From<CapacityError<Holding>> for PushError {
    ghost use Rattle.sharing.specs.declared.level.PushError.TheVariants.{LevelFull};

    ghost from_gives = { λ _ error. error ≡ LevelFull };

    fn from(_error: CapacityError<Holding>) -> PushError {
        PushError::LevelFull
    }
}

/// The rows at one price, in row order.
#[derive(Drop)]
pub struct Level {
    pub(crate) rows: ArrayVec<Holding, LEVEL_ROWS>,
    ghost sound: { all_sized rows.items ≡ true },
}
