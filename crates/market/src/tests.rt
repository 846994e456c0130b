//! Examples, with their answers from the rules.
use crate::depth::{DepthLevel, DepthTable};
use crate::pair::Pair;
use crate::single::{Entry, SingleMarket};
use crate::switch::FirmSwitch;
use crate::{Market, ShownMarket};
use interest::Side;

fn offering(price: u32, size: u32) -> SingleMarket {
    SingleMarket {
        bid: None,
        offer: Some(Entry { price, size }),
    }
}

#[test]
fn the_best_price_goes_first(rt: HostRuntime) {
    let mut levels = [
        DepthLevel {
            side: Side::Sell,
            price: 104,
            size: 5,
        },
        DepthLevel {
            side: Side::Sell,
            price: 102,
            size: 20,
        },
    ];
    let table: &mut [DepthLevel] = &mut levels;
    let mut market = Pair {
        first: offering(103, 10),
        second: DepthTable { table },
    };
    assert_eq!(rt; market.best(Side::Sell), Some(102));
    assert_eq!(rt; market.send(Side::Sell, 103, 25), 25);
    assert_eq!(rt; market.count(Side::Sell, 102, 1000), 0);
    assert_eq!(rt; market.count(Side::Sell, 103, 1000), 5);
    assert_eq!(rt; market.count(Side::Sell, 104, 1000), 10);
    assert_eq!(rt;
        market.send(Side::Sell, 0, 1) + market.send(Side::Sell, 100_001, 1),
        0
    );
    assert_eq!(rt; market.count(Side::Sell, 104, 1000), 10);
}

#[test]
fn a_switch_that_is_off_shows_nothing(rt: HostRuntime) {
    let mut market = FirmSwitch {
        firm: false,
        market: offering(103, 10),
    };
    assert_eq!(rt; market.best(Side::Sell), None);
    assert_eq!(rt; market.send(Side::Sell, 103, 4), 0);
    market.firm = true;
    assert_eq!(rt; market.count(Side::Sell, 103, 1000), 10);
}

#[test]
fn an_entry_out_of_bounds_shows_nothing(rt: HostRuntime) {
    assert_eq!(rt; offering(0, 5).count(Side::Sell, 100_000, 9), 0);
    assert_eq!(rt; offering(100_001, 5).count(Side::Sell, 100_000, 9), 0);
    assert_eq!(rt; offering(7, 0).best(Side::Sell), None);
    assert_eq!(rt; offering(7, 1_000_001).best(Side::Sell), None);
    assert_eq!(rt;
        offering(100_000, 1_000_000).count(Side::Sell, 100_000, 9),
        9
    );
}

#[test]
fn sixty_four_levels_count(rt: HostRuntime) {
    let mut levels = [DepthLevel {
        side: Side::Buy,
        price: 0,
        size: 0,
    }; 65];
    levels[63] = DepthLevel {
        side: Side::Buy,
        price: 50,
        size: 1,
    };
    levels[64] = DepthLevel {
        side: Side::Buy,
        price: 60,
        size: 1,
    };
    let table: &mut [DepthLevel] = &mut levels;
    let market = DepthTable { table };
    assert_eq!(rt; market.best(Side::Buy), Some(50));
    assert_eq!(rt; market.count(Side::Buy, 40, 9), 1);
}
