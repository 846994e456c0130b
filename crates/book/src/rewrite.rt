//! One row rewritten in its place in the table; nothing is done where the index is past the rows that stand.
ghost use Rattle.std.specs.Prelude.{◌≡◌};
ghost use Rattle.book.specs.Books.{rows_of};
ghost use Rattle.book.specs.Rewrites.{changed_at, trade_row, route_row, cancel_row, rest_row};

use crate::book::Book;

impl Book {
    // Two functions for two fields: one that takes the field as a closure would be longer than both.

    /// Moves up to `n` of a row's contracts left to those traded.
    pub fn trade(&mut self, at: usize, n: u32)
        ensures { rows_of self.new ≡ changed_at at (trade_row n) (rows_of self.old) }
    {
        if let Some(row) = self.rows.get_mut(at) {
            row.traded += row.take_left(n);
        }
    }

    /// Moves up to `n` of a row's contracts left to those routed.
    pub fn route(&mut self, at: usize, n: u32)
        ensures { rows_of self.new ≡ changed_at at (route_row n) (rows_of self.old) }
    {
        if let Some(row) = self.rows.get_mut(at) {
            row.routed += row.take_left(n);
        }
    }

    /// Moves all of a row's contracts left to those cancelled.
    pub fn cancel(&mut self, at: usize)
        ensures { rows_of self.new ≡ changed_at at cancel_row (rows_of self.old) }
    {
        if let Some(row) = self.rows.get_mut(at) {
            row.cancelled += row.left;
            row.left = 0;
        }
    }

    /// Writes the prices at which a row works and is shown.
    pub fn rest(&mut self, at: usize, working: u32, shown: u32)
        ensures { rows_of self.new ≡ changed_at at (rest_row working shown) (rows_of self.old) }
    {
        if let Some(row) = self.rows.get_mut(at) {
            row.working = working;
            row.shown = shown;
        }
    }
}
