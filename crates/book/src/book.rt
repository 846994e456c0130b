//! The table itself.
ghost use Rattle.std.specs.Prelude.{◌≡◌, true};
ghost use Rattle.book.specs.Rows.{sound_table};

use crate::row::Row;
use arrayvec::ArrayVec;

/// How many orders may stand together.
pub const ORDERS: usize = 96;

/// 96 orders, and a bid and an offer of each of 16 makers.
const ROWS: usize = 128;

/// At most 96 orders, as accepted, then the sides of the quotes of makers 1 to 16.
#[derive(Drop)]
pub struct Book {
    pub(crate) rows: ArrayVec<Row, ROWS>,
    ghost sound: { sound_table rows.items ≡ true },
}
