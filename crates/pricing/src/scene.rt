//! What a price is looked for in.
use book::book::Book;
use ladder::Ladder;
use market::ShownMarket;

/// The permitted prices, the prior close if there is one, the rows, and the away market.
#[derive(Drop)]
pub struct Scene<'a, L: Ladder, M: ShownMarket> {
    pub ladder: &'a L,
    pub close: Option<u32>,
    pub book: &'a Book,
    pub market: &'a M,
}
