//! What a script plays on: an auction, an away market, and a book of rows for the inspection calls.
use crate::floor;
use crate::floor::Series;
use crate::venues::Venues;
use answers::AuctionAnswer;
use auction::Auction;
use book::book::Book;
use book::row::Order;
use calls::AuctionCall;
use choices::{NamedLadder, NamedRule};
use interest::{Class, Limit, Refusal, Side, TOP_PRICE, is_price};
use pricing::figures::{Figures, Mode};
use ranges::{BestPrices, Quotes, Range, is_quality, is_valid};
use script::answers::{Answer, PriceAnswer, RangesAnswer};
use script::calls::Call;
use stages::Settings;

/// An auction, once one was made, the away market, and the rows that prices are looked up for.
#[derive(Drop)]
pub struct Desk {
    pub(crate) series: Option<Series>,
    pub(crate) venues: Venues,
    book: Book,
}

// A bid may be 0, an offer may not.
fn is_quotable(quotes: Quotes) -> bool {
    quotes.bid <= TOP_PRICE && is_price(quotes.offer)
}

impl Desk {
    pub(crate) fn new(heap: std::alloc::Global) -> Desk {
        Desk {
            series: None,
            venues: Venues::new(heap),
            book: Book::new(),
        }
    }

    /// The answer to a call of the auction.
    pub(crate) fn answer_auction(&mut self, call: AuctionCall) -> AuctionAnswer {
        if let AuctionCall::Make {
            ladder,
            rule,
            settings,
        } = call
        {
            return self.make(ladder, rule, settings);
        }
        let Some(series) = self.series.as_mut() else {
            return AuctionAnswer::NoAuction;
        };
        floor::answer(series, &mut self.venues, call).unwrap_or_else(AuctionAnswer::Refused)
    }

    // A new auction comes with an empty away market; a refused one leaves both as they are.
    fn make(&mut self, ladder: NamedLadder, rule: NamedRule, settings: Settings) -> AuctionAnswer {
        match Auction::make(ladder, rule, settings) {
            Ok(series) => {
                self.series = Some(series);
                self.venues.clear();
                AuctionAnswer::Made
            }
            Err(refusal) => AuctionAnswer::Refused(refusal),
        }
    }

    /// The answer to a call that looks at a part of the engine; none to one whose numbers make no sense.
    pub(crate) fn answer(&mut self, call: Call) -> Option<Answer> {
        match call {
            Call::Row {
                side,
                limit,
                size,
                class,
            } => self.add_row(side, limit, size, class),
            Call::RowsClear => {
                self.book = Book::new();
                Some(Answer::Rows { rows: 0 })
            }
            Call::Price { mode, range, close } => self.price(mode, range, close),
            Call::Ranges(quotes) => self.ranges(quotes),
            Call::Valid(quotes) => {
                is_quotable(quotes).then_some(Answer::Valid(is_valid(quotes.bid, quotes.offer)))
            }
            call => self.venues.answer(call),
        }
    }

    fn add_row(&mut self, side: Side, limit: Limit, size: u32, class: Class) -> Option<Answer> {
        let rows = self.book.rows().len();
        let number = u32::try_from(rows).ok()?.checked_add(1)?;
        match self.book.add(Order {
            number,
            side,
            limit,
            size,
            class,
        }) {
            Ok(_) => Some(Answer::Row {
                rows: self.book.rows().len(),
            }),
            Err(Refusal::BookFull) => Some(Answer::Full),
            Err(_) => None,
        }
    }

    fn price(&mut self, mode: Mode, range: Range, close: Option<u32>) -> Option<Answer> {
        if range.low.max(range.high).max(close.unwrap_or(0)) > TOP_PRICE {
            return None;
        }
        let choice = self.venues.choose(&self.book, mode, range, close);
        Some(Answer::Price(choice.map(PriceAnswer)))
    }

    /// What a price comes to.
    pub(crate) fn figures(&mut self, mode: Mode, price: u32) -> Option<Figures> {
        self.venues.figures(&self.book, mode, price)
    }

    fn ranges(&mut self, quotes: Quotes) -> Option<Answer> {
        if !is_quotable(quotes) {
            return None;
        }
        let best = BestPrices {
            quotes,
            away: self.venues.bests(),
        };
        Some(Answer::Ranges(RangesAnswer {
            quick: best.quick_range(),
            opening: best.opening_range(),
            quality: is_quality(quotes),
        }))
    }
}
