//! Several sends, one after another.
ghost use Rattle.std.specs.Prelude.{◌≡◌, ℕ};
ghost use Rattle.interest.specs.Sides.{opposite};
ghost use Rattle.market.specs.Counts.{counted, TakenFrom, SameCounts};
ghost use Rattle.market.specs.Sends.{sent_in_all, asked_in_all, AllAt};

use crate::Market;
use interest::Side;

/// What one send asks for.
#[derive(Clone, Copy)]
pub struct Sending {
    pub price: u32,
    pub contracts: u32,
}

/// Sends on a side, one after another, and answers how many contracts were taken in all.
pub fn send_all<M: Market>(market: &mut M, side: Side, sendings: &[Sending]) -> u128
    ensures answer { result ≡ sent_in_all (M.ShownMarket.shown market.old side) sendings.now }
    ensures taken { TakenFrom (M.ShownMarket.shown market.old side) result (M.ShownMarket.shown market.new side) }
    ensures stays { SameCounts (M.ShownMarket.shown market.old (opposite side)) (M.ShownMarket.shown market.new (opposite side)) }
    ensures one_price { (p : ℕ) → AllAt p sendings.now → result ≡ counted (M.ShownMarket.shown market.old side) p (asked_in_all sendings.now) }
{
    let mut total: u128 = 0;
    for sending in sendings {
        total += u128::from(market.send(side, sending.price, sending.contracts));
    }
    total
}
