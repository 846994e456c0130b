//! The price levels of a book: the rows of one side with one limit, or all its market rows, best level first.
#![tactic(auto)]

ghost use Rattle.std.specs.Prelude.{◌≡◌};
ghost use Rattle.book.specs.Ranks.{rank};
ghost use Rattle.levels.specs.Levels.{part_of, stands_at, next_rank, NextRank};

use book::row::Row;
use book::sums::is_routable;
use interest::{Limit, Side};

/// Which rows take part: those of a side, or its routable ones. It stays an enum and is no closure: a closure would need a
/// `requires` on `stands_at` and `next_rank`, and contracts that say of each row what the closure answers; an enum needs neither.
#[derive(Clone, Copy)]
pub enum Part {
    All(Side),
    Routable(Side),
}

impl Part {
    fn takes(self, row: &Row) -> bool
        ensures { result ≡ part_of self row.now }
    {
        match self {
            Part::All(side) => row.side == side,
            Part::Routable(side) => row.side == side && is_routable(row.class),
        }
    }
}

/// The place of a limit in the price order of its side: the smaller, the better.
pub fn rank_of(side: Side, limit: Limit) -> u32
    ensures { result ≡ rank side limit }
{
    match (side, limit) {
        (_, Limit::Market) => 0,
        (Side::Buy, Limit::At(price)) => 100_001u32.saturating_sub(price),
        (Side::Sell, Limit::At(price)) => price,
    }
}

/// Whether a row with contracts left takes part, at a rank.
pub fn stands_at(part: Part, row: &Row, at: u32) -> bool
    ensures { result ≡ stands_at (part_of part) at row.now }
{
    part.takes(row) && rank_of(row.side, row.limit) == at && 0 < row.left
}

/// The best rank from `from` on, better than `top`, that has contracts left.
pub fn next_rank(rows: &[Row], part: Part, from: u32, top: u32) -> Option<u32>
    ensures is { result ≡ next_rank (part_of part) from top rows.now }
    ensures next { NextRank (part_of part) from top rows.now result }
{
    rows.iter()
        .filter(|row| part.takes(row) && 0 < row.left)
        .map(|row| rank_of(row.side, row.limit))
        .filter(|rank| (from..top).contains(rank))
        .min()
}
