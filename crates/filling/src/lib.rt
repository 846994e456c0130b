//! Filling: a volume handed to the rows of one side, best level first; a level filled in part is shared.
#![tactic(auto)]

ghost use Rattle.std.specs.Prelude.{◌≡◌, ℕ, ◌+◌, ◌-◌, ◌<◌, min};
ghost use Rattle.sharing.specs.Levels.{rows_of as holdings_of};
ghost use Rattle.book.specs.declared.row.Row.{Row as RowOf};
ghost use Rattle.book.specs.Ranks.{of_side, total_of, below, at_rank};
ghost use Rattle.book.specs.Books.{rows_of};
ghost use Rattle.book.specs.Rewrites.{trade_row};
ghost use Rattle.levels.specs.Levels.{holding_of, level_at};
ghost use Rattle.levels.specs.Deals.{deal};
ghost use Rattle.filling.specs.Fills.{filled_rows, got_traded, InPriority};

use book::book::Book;
use book::row::Row;
use interest::Side;
use levels::{Part, next_rank, stands_at};
use sharing::{Holding, Level, SharingRule};

// A level, with the contracts in it.
#[derive(Drop)]
struct Gathered {
    level: Level,
    contracts: u32,
}

fn holding_of(row: &Row) -> Holding
    ensures { result ≡ holding_of row.now }
{
    Holding {
        class: row.class,
        size: row.left,
    }
}

// The rows of a side at a rank that have contracts left.
fn gather(book: &Book, side: Side, at: u32) -> Gathered
    ensures level { holdings_of result.level ≡ level_at (of_side side) at (rows_of book.now) }
    ensures contracts { result.contracts ≡ at_rank (of_side side) at (rows_of book.now) }
{
    let mut level = Level::new();
    let mut contracts = 0;
    for row in book.rows() {
        if stands_at(Part::All(side), row, at) {
            let _ = level.push(holding_of(row));
            contracts += row.left;
        }
    }
    Gathered { level, contracts }
}

// Hands the rows of a level their shares, in row order; a row past the last share gets nothing.
fn hand_out(book: &mut Book, side: Side, at: u32, shares: &[u32])
    ensures { rows_of book.new ≡ deal (of_side side) trade_row at shares.now 0 (rows_of book.old) }
{
    let mut rest = shares.iter();
    // By index, since a row is written through the book before the next is read.
    for i in 0..book.rows().len() {
        let row = book.rows()[i];
        if stands_at(Part::All(side), &row, at) {
            let share = rest.next().copied().unwrap_or(0);
            book.trade(i, share);
        }
    }
}

// One level filled from what is left of the volume; answers the level's contracts.
fn fill_level<R: SharingRule>(book: &mut Book, side: Side, at: u32, rest: u32, rule: &R) -> u32
    ensures rows { rows_of book.new ≡ deal (of_side side) trade_row at (R.SharingRule.shares rule.now rest (level_at (of_side side) at (rows_of book.old))) 0 (rows_of book.old) }
    ensures contracts { result ≡ at_rank (of_side side) at (rows_of book.old) }
{
    let gathered = gather(book, side, at);
    let shares = rule.share(rest, &gathered.level);
    hand_out(book, side, at, &shares);
    gathered.contracts
}

// What a level of so many contracts leaves of the volume.
fn rest_after(rest: u32, contracts: u32) -> u32
    ensures { result ≡ rest - contracts }
{
    rest.saturating_sub(contracts)
}

/// Fills up to `volume` contracts on a side, best level first, among the rows of a rank better than `upto`.
pub fn fill<R: SharingRule>(book: &mut Book, side: Side, upto: u32, volume: u32, rule: &R)
    ensures rows { rows_of book.new ≡ filled_rows (R.SharingRule.shares rule.now) side upto volume (rows_of book.old) }
    ensures levels { (k : ℕ) → k < upto → got_traded side k (rows_of book.old) (rows_of book.new) ≡ R.SharingRule.shares rule.now (volume - below (of_side side) k (rows_of book.old)) (level_at (of_side side) k (rows_of book.old)) }
    ensures traded { total_of (λ (x : RowOf). x.traded) (of_side side) (rows_of book.new) ≡ total_of (λ (x : RowOf). x.traded) (of_side side) (rows_of book.old) + min volume (below (of_side side) upto (rows_of book.old)) }
    ensures priority { InPriority side (rows_of book.old) (rows_of book.new) }
{
    let part = Part::All(side);
    let mut rest = volume;
    let mut from = 0;
    while let Some(at) = next_rank(book.rows(), part, from, upto) {
        let contracts = fill_level(book, side, at, rest, rule);
        rest = rest_after(rest, contracts);
        from = at + 1;
    }
}
