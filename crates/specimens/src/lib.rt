//! Worked cases of the rules: facts about the definitions that the contracts cite, and the same cases as tests of the code.
#![tactic(auto)]

ghost use Rattle.std.specs.Prelude.{◌≡◌, [], ◌∷◌};
ghost use Rattle.specimens.specs.Cases.{WorkedCases, between};

use arrayvec::ArrayVec;
use interest::Class;
use ranges::{Away, BestPrices, Quotes, Range};
use sharing::{Holding, LEVEL_ROWS, Level, SharingRule, SizeProRata};

/// The worked cases follow from the definitions.
pub fn worked_cases()
    ensures { WorkedCases }
{}

/// Ten contracts for a customer of 4 and others of 7, 5 and 3: the customer first, the others by size, rounded up.
pub fn ten_shared() -> ArrayVec<u32, LEVEL_ROWS>
    ensures { result.items ≡ 4 ∷ 3 ∷ 2 ∷ 1 ∷ [] }
{
    let mut level = Level::new();
    let _ = level.push(Holding {
        class: Class::Fixed,
        size: 4,
    });
    let _ = level.push(Holding {
        class: Class::Other,
        size: 7,
    });
    let _ = level.push(Holding {
        class: Class::Other,
        size: 5,
    });
    let _ = level.push(Holding {
        class: Class::Other,
        size: 3,
    });
    SizeProRata.share(10, &level)
}

/// The opening range of a bid of 199 and an offer of 210 with nothing shown away.
pub fn range_of_199_210() -> Range
    ensures { result ≡ between 189 220 }
{
    let best = BestPrices {
        quotes: Quotes {
            bid: 199,
            offer: 210,
        },
        away: Away {
            bid: None,
            offer: None,
        },
    };
    best.opening_range()
}

#[cfg(test)]
mod tests {
    use book::book::Book;
    use book::row::Order;
    use interest::{Class, Limit, Side};
    use ladder::EveryCent;
    use market::single::{Entry, SingleMarket};
    use pricing::figures::Mode;
    use pricing::scene::Scene;
    use ranges::Range;

    fn add(book: &mut Book, side: Side, class: Class, size: u32, price: u32) {
        let number = book.rows().len() as u32 + 1;
        let _ = book.add(Order {
            number,
            side,
            limit: Limit::At(price),
            size,
            class,
        });
    }

    const NOBODY: SingleMarket = SingleMarket {
        bid: None,
        offer: None,
    };

    // Price and volume in the range 100 to 110, or none.
    fn told(
        book: &Book,
        close: Option<u32>,
        market: &SingleMarket,
        mode: Mode,
    ) -> Option<(u32, u32)> {
        let scene = Scene {
            ladder: &EveryCent,
            close,
            book,
            market,
        };
        let range = Range {
            low: 100,
            high: 110,
        };
        scene.choose(mode, range).map(|c| (c.price, c.volume))
    }

    fn alone(book: &Book, close: Option<u32>) -> Option<(u32, u32)> {
        told(book, close, &NOBODY, Mode::Exchange)
    }

    fn offering(price: u32, size: u32) -> SingleMarket {
        SingleMarket {
            bid: None,
            offer: Some(Entry { price, size }),
        }
    }

    fn two(buys: u32, at: u32, sells: u32) -> Book {
        let mut book = Book::new();
        add(&mut book, Side::Buy, Class::Other, buys, at);
        add(&mut book, Side::Sell, Class::Other, sells, 100);
        book
    }

    #[test]
    fn one_side_larger_and_both_equal(rt: HostRuntime) {
        assert_eq!(rt; alone(&two(100, 110, 50), None), Some((110, 50)));
        assert_eq!(rt; alone(&two(100, 110, 100), None), Some((105, 100)));
    }

    #[test]
    fn half_cent_by_the_prior_close(rt: HostRuntime) {
        assert_eq!(rt; alone(&two(10, 105, 10), None), Some((103, 10)));
        assert_eq!(rt; alone(&two(10, 105, 10), Some(90)), Some((102, 10)));
    }

    fn four(last: u32) -> Book {
        let mut book = Book::new();
        add(&mut book, Side::Buy, Class::Other, 100, 104);
        add(&mut book, Side::Buy, Class::Other, 50, 110);
        add(&mut book, Side::Sell, Class::Other, 50, 100);
        add(&mut book, Side::Sell, Class::Other, last, 105);
        book
    }

    #[test]
    fn more_unmatched_and_a_tie(rt: HostRuntime) {
        assert_eq!(rt; alone(&four(100), None), Some((104, 50)));
        assert_eq!(rt; alone(&four(120), None), Some((105, 50)));
    }

    #[test]
    fn routing_to_better_offers(rt: HostRuntime) {
        let mut book = Book::new();
        add(&mut book, Side::Buy, Class::Routable, 30, 110);
        add(&mut book, Side::Buy, Class::Other, 20, 110);
        add(&mut book, Side::Sell, Class::Other, 40, 105);
        let some = told(&book, None, &offering(103, 25), Mode::Routing);
        let many = told(&book, None, &offering(103, 31), Mode::Routing);
        assert_eq!(rt; some, Some((105, 25)));
        assert_eq!(rt; many, None);
    }
}
