//! Making a level, adding a row to it and reading it.
ghost use Rattle.std.specs.Prelude.{◌≡◌, ◌≤◌, true, [], ◌∷◌, ◌++◌, length, is_ok, if◌then◌else◌};
ghost use Rattle.sharing.specs.Holdings.{all_sized, push_answer};
ghost use Rattle.sharing.specs.Levels.{rows_of};

use crate::level::{Holding, Level, PushError};
use arrayvec::ArrayVec;
use interest::is_size;

impl Level {
    /// A level without rows.
    pub fn new() -> Level
        ensures { rows_of result ≡ [] }
    {
        Level {
            rows: ArrayVec::new(),
        }
    }

    /// The rows, in their order.
    pub fn holdings(&self) -> &[Holding]
        ensures rows { result.now ≡ rows_of self.now }
        ensures few { length result.now ≤ 128 }
        ensures sound { all_sized result.now ≡ true }
    {
        self.rows.as_slice()
    }

    /// Adds a row at the end, or leaves the level as it was and says why.
    pub fn push(&mut self, holding: Holding) -> Result<(), PushError>
        ensures answer { result ≡ push_answer (rows_of self.old) holding }
        ensures rows { rows_of self.new ≡ (if is_ok result then rows_of self.old ++ holding ∷ [] else rows_of self.old) }
    {
        if !is_size(holding.size) {
            return Err(PushError::SizeOutOfBounds);
        }
        self.rows.try_push(holding)?;
        Ok(())
    }
}
