//! The sizes of the rows that count.
ghost use Rattle.std.specs.Prelude.{◌≡◌, ◌-◌, ◌≤◌, Bool};
ghost use Rattle.interest.specs.declared.Class.{Class as ClassOf};
ghost use Rattle.sharing.specs.Levels.{rows_of};
ghost use Rattle.sharing.specs.Totals.{total};
ghost use Rattle.sharing.specs.Sizes.{of_customer, AnswersAs, sizes_where};
ghost use Rattle.sharing.specs.InOrder.{in_order};

use crate::level::{LEVEL_ROWS, Level};
use arrayvec::ArrayVec;
use interest::Class;

/// Whether a class is a customer's.
pub(crate) fn of_customer(class: Class) -> bool
    ensures { result ≡ of_customer class }
{
    matches!(class, Class::Routable | Class::Fixed)
}

/// A size for each row of a level, 0 where the row does not count, and the whole of them.
#[derive(Drop)]
pub(crate) struct Sizes {
    pub(crate) each: ArrayVec<u32, LEVEL_ROWS>,
    pub(crate) whole: u32,
    ghost sum: { whole ≡ total each.items },
    ghost small: { whole ≤ 128000000 },
}

/// The size of each row whose class counts, and 0 for each other.
pub(crate) fn sizes_where<F: Fn(Class) -> bool>(
    level: &Level,
    counts: F,
) -> ArrayVec<u32, LEVEL_ROWS>
    requires { F.IsAlwaysCallable counts }
    ensures sizes { (test : ClassOf → Bool) → AnswersAs test (F.post counts) → result.items ≡ sizes_where test (rows_of level.now) }
    ensures small { total result.items ≤ 128000000 }
{
    let mut each = ArrayVec::new();
    for row in level.holdings() {
        each.push(if counts(row.class) { row.size } else { 0 });
    }
    each
}

impl Sizes {
    /// The sizes of the rows of the classes that count.
    pub(crate) fn of<F: Fn(Class) -> bool>(level: &Level, counts: F) -> Sizes
        requires { F.IsAlwaysCallable counts }
        ensures { (test : ClassOf → Bool) → AnswersAs test (F.post counts) → result.each.items ≡ sizes_where test (rows_of level.now) }
    {
        let each = sizes_where(level, counts);
        let whole = each.iter().sum();
        Sizes { each, whole }
    }
}

/// Turns sizes into shares, each in order as much as is left of the quantity; answers what is left at the end.
pub(crate) fn fill_in_order(quantity: u32, shares: &mut [u32]) -> u32
    ensures shares { shares.new ≡ in_order quantity shares.old }
    ensures left { result ≡ quantity - total shares.old }
{
    let mut left = quantity;
    for share in shares.iter_mut() {
        *share = (*share).min(left);
        left -= *share;
    }
    left
}
