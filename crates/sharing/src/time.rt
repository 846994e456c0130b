//! Sharing by time alone.
ghost use Rattle.std.proofs.Common.{◌∙◌};
ghost use Rattle.sharing.specs.InOrder.{time_shares};
ghost use Rattle.std.proofs.lemmas.List.{length-map};
ghost use Rattle.sharing.specs.Totals.{contracts};
ghost use Rattle.sharing.specs.InOrders.{order-length, order-within, order-whole};

use crate::level::{LEVEL_ROWS, Level};
use crate::rule::SharingRule;
use crate::sizes::{fill_in_order, sizes_where};
use arrayvec::ArrayVec;

/// The rows in order, each as much as is left of the quantity.
#[derive(Clone, Copy)]
pub struct TimePriority;

impl SharingRule for TimePriority {
    ghost shares = { λ _ q rows. time_shares q rows };

    ghost each = { λ x q rows. order-length q (contracts rows) ∙ length-map rows _ };

    ghost within = { λ x q rows. order-within q (contracts rows) };

    ghost whole = { λ x q rows. order-whole q (contracts rows) };

    fn share(&self, quantity: u32, level: &Level) -> ArrayVec<u32, LEVEL_ROWS> {
        let mut shares = sizes_where(level, |_| true);
        fill_in_order(quantity, shares.as_mut_slice());
        shares
    }
}
