//! Sharing by size: customers first, then the others in proportion to their sizes.
ghost use Rattle.std.specs.Prelude.{◌≡◌, cond, length};
ghost use Rattle.sharing.specs.Levels.{rows_of};
ghost use Rattle.sharing.specs.Sizes.{of_customer};
ghost use Rattle.sharing.specs.ProRata.{chosen, pro_rata, size_shares};
ghost use Rattle.sharing.specs.Promises.{SharedBySize};
ghost use Rattle.sharing.specs.Keeping.{size-length, size-within, size-whole};

use crate::level::{Holding, LEVEL_ROWS, Level};
use crate::ranks::Claims;
use crate::rule::SharingRule;
use crate::sizes::{Sizes, fill_in_order, of_customer, sizes_where};
use arrayvec::ArrayVec;
use interest::Class;

/// A quantity, or the whole if that is less, in proportion to the sizes.
fn share_pro_rata(quantity: u32, sizes: &Sizes) -> ArrayVec<u32, LEVEL_ROWS>
    ensures { result.items ≡ pro_rata quantity sizes.now.each.items }
{
    Claims::on(quantity, sizes).by_rank()
}

/// A customer's share, or another's.
fn share_for(class: Class, customer: u32, other: u32) -> u32
    ensures { result ≡ cond (of_customer class) customer other }
{
    if of_customer(class) { customer } else { other }
}

/// Puts in the shares of those who are no customers.
fn put_others(rows: &[Holding], others: &[u32], shares: &mut [u32])
    requires long { length shares.old ≡ length rows.now }
    requires same { length others.now ≡ length rows.now }
    ensures { shares.new ≡ chosen rows.now shares.old others.now }
{
    for (i, row) in rows.iter().enumerate() {
        shares[i] = share_for(row.class, shares[i], others[i]);
    }
}

/// The customers in order, then the others from the largest in proportion to their sizes.
#[derive(Clone, Copy)]
pub struct SizeProRata;

impl SharingRule for SizeProRata {
    ghost shares = { λ _ q rows. size_shares q rows };

    ghost each = { λ x q rows. size-length q rows };

    ghost within = { λ x q rows. size-within q rows };

    ghost whole = { λ x q rows. size-whole q rows };

    fn share(&self, quantity: u32, level: &Level) -> ArrayVec<u32, LEVEL_ROWS>
        ensures shares { result.items ≡ size_shares quantity (rows_of level.now) }
        ensures turns { SharedBySize quantity (rows_of level.now) result.items }
    {
        let mut shares = sizes_where(level, of_customer);
        let left = fill_in_order(quantity, shares.as_mut_slice());
        let others = share_pro_rata(left, &Sizes::of(level, |class| !of_customer(class)));
        put_others(level.holdings(), &others, shares.as_mut_slice());
        shares
    }
}
