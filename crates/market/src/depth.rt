//! A depth table in the caller's memory.
ghost use Rattle.std.specs.Prelude.{◌≡◌, ℕ, ◌-◌, ◌≤◌, List, length, take};
ghost use Rattle.interest.specs.Sides.{opposite};
ghost use Rattle.market.specs.Counts.{counted, TakenFrom, SameCounts, best_of};
ghost use Rattle.market.specs.declared.depth.DepthLevel.{DepthLevel};
ghost use Rattle.market.specs.Levels.{level_stands, level_shows, levels_show, Foremost, Sent, TableSent};
ghost use Rattle.market.specs.Depths.{levels-mono, levels-edge};

use crate::single::Entry;
use crate::{Market, ShownMarket, reached};
use interest::{Side, is_price};

/// The levels of a table that count.
pub const LEVELS: usize = 64;

/// So many contracts at a price of a side. With its price or its size out of bounds it shows nothing.
#[derive(Clone, Copy)]
pub struct DepthLevel {
    pub side: Side,
    pub price: u32,
    pub size: u32,
}

impl From<DepthLevel> for Entry {
    ghost from_gives = { λ level entry. (entry.price ≡ level.price) × (entry.size ≡ level.size) };

    fn from(level: DepthLevel) -> Entry {
        Entry {
            price: level.price,
            size: level.size,
        }
    }
}

impl DepthLevel {
    /// Whether the level shows contracts on a side.
    pub fn stands_on(&self, side: Side) -> bool
        ensures { result ≡ level_stands side self.now }
    {
        side == self.side && Entry::from(*self).stands()
    }

    /// The smaller of `n` and what the level shows on a side at a price; 0 out of bounds.
    pub fn count(&self, side: Side, price: u32, n: u32) -> u32
        ensures { result ≡ counted (level_shows side self.now) price n }
    {
        if side == self.side {
            Entry::from(*self).count(side, price, n)
        } else {
            0
        }
    }
}

/// The place of the level that is taken first on a side: at the best price, the earliest.
fn foremost(levels: &[DepthLevel], side: Side) -> Option<usize>
    ensures { Foremost side levels.now (length levels.now) result }
{
    let mut first: Option<usize> = None;
    for (at, level) in levels.iter().enumerate() {
        if level.stands_on(side)
            && first.is_none_or(|k| !reached(side, levels[k].price, level.price))
        {
            first = Some(at);
        }
    }
    first
}

/// The best price of the levels.
fn best_of(levels: &[DepthLevel], side: Side) -> Option<u32>
    ensures { result ≡ best_of side (levels_show side levels.now) }
{
    foremost(levels, side).map(|at| levels[at].price)
}

/// The smaller of `n` and what the levels show at a price.
fn count_of(levels: &[DepthLevel], side: Side, price: u32, n: u32) -> u32
    ensures { result ≡ counted (levels_show side levels.now) price n }
{
    let mut total = 0;
    for level in levels {
        total += level.count(side, price, n - total);
    }
    total
}

/// Takes up to `n` of what the levels of a table that count show at a price, the foremost level first.
fn send_of(levels: &mut [DepthLevel], side: Side, price: u32, n: u32) -> u32
    ensures answer { result ≡ counted (levels_show side (take 64 levels.old)) price n }
    ensures taken { TakenFrom (levels_show side (take 64 levels.old)) result (levels_show side (take 64 levels.new)) }
    ensures stays { SameCounts (levels_show (opposite side) (take 64 levels.old)) (levels_show (opposite side) (take 64 levels.new)) }
    ensures table { TableSent side price n levels.old levels.new }
{
    if !is_price(price) {
        return 0;
    }
    let top = levels.len().min(LEVELS);
    let counting = &mut levels[..top];
    let mut left = n;
    while left > 0
        && let Some(at) = foremost(counting, side)
        && reached(side, counting[at].price, price)
    {
        let m = left.min(counting[at].size);
        counting[at].size -= m;
        left -= m;
    }
    n - left
}

/// The levels of a table that count.
fn counting(levels: &[DepthLevel]) -> &[DepthLevel]
    ensures { result.now ≡ take 64 levels.now }
{
    let top = levels.len().min(LEVELS);
    &levels[..top]
}

/// A table of levels, of which the first `LEVELS` count; the memory stays the caller's.
pub trait Table {
    /// All levels of the table, those past the 64th too.
    ghost levels: { Self → List DepthLevel };

    fn best_level(&self, side: Side) -> Option<u32>
        ensures { result ≡ best_of side (levels_show side (take 64 (levels self.now))) };

    fn count_levels(&self, side: Side, price: u32, n: u32) -> u32
        ensures { result ≡ counted (levels_show side (take 64 (levels self.now))) price n };

    fn send_levels(&mut self, side: Side, price: u32, n: u32) -> u32
        ensures answer { result ≡ counted (levels_show side (take 64 (levels self.old))) price n }
        ensures taken { TakenFrom (levels_show side (take 64 (levels self.old))) result (levels_show side (take 64 (levels self.new))) }
        ensures stays { SameCounts (levels_show (opposite side) (take 64 (levels self.old))) (levels_show (opposite side) (take 64 (levels self.new))) }
        ensures table { TableSent side price n (levels self.old) (levels self.new) };
}

impl Table for &mut [DepthLevel] {
    ghost levels = { λ s. s.now };

    fn best_level(&self, side: Side) -> Option<u32> {
        best_of(counting(self), side)
    }

    fn count_levels(&self, side: Side, price: u32, n: u32) -> u32 {
        count_of(counting(self), side, price, n)
    }

    fn send_levels(&mut self, side: Side, price: u32, n: u32) -> u32 {
        send_of(self, side, price, n)
    }
}

/// A market whose contracts are the levels of a table.
#[derive(Drop)]
pub struct DepthTable<T> {
    pub table: T,
}

impl<T: Table> ShownMarket for DepthTable<T> {
    ghost shown = { λ s d p. levels_show d (take 64 (T.Table.levels s.table)) p };

    ghost worsens = { λ s d p q h. levels-mono d (take 64 (T.Table.levels s.table)) p q h };

    ghost edge = { λ s d. levels-edge d (take 64 (T.Table.levels s.table)) };

    fn best(&self, side: Side) -> Option<u32> {
        self.table.best_level(side)
    }

    fn count(&self, side: Side, price: u32, n: u32) -> u32 {
        self.table.count_levels(side, price, n)
    }
}

impl<T: Table> Market for DepthTable<T> {
    ghost leaves = { λ d p n _ s t. TableSent d p n (T.Table.levels s.table) (T.Table.levels t.table) };

    fn send(&mut self, side: Side, price: u32, n: u32) -> u32 {
        self.table.send_levels(side, price, n)
    }
}
