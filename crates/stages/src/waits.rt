//! Reasons to wait.
ghost use Rattle.std.specs.Prelude.{◌≡◌};
ghost use Rattle.book.specs.Books.{rows_of};
ghost use Rattle.stages.specs.Waits.{reason_number, open_for, opens_later, above, too_few_quotes, reason_to_wait, unless_waiting};

use crate::settings::Settings;
use book::book::Book;
use interest::Side;
use market::ShownMarket;

/// When trading begins: half past nine, in milliseconds after midnight.
const TRADING_BEGINS: u32 = 34_200_000;

/// Why a series does not open yet, by the number that is told of it.
#[derive(Clone, Copy, PartialEq, Eq, Debug)]
pub enum Reason {
    /// Trading has not begun.
    TooEarly = 1,
    /// The underlying is not open, or not for long enough.
    UnderlyingNotOpen = 2,
    /// The away bid is above the away offer.
    AwayCrossed = 3,
    /// Maker 1 does not quote, and too few others do.
    TooFewQuotes = 4,
}

/// The number by which a reason is told.
impl From<Reason> for u8 {
    ghost from_gives = { λ reason n. n ≡ reason_number reason };

    fn from(reason: Reason) -> u8 {
        reason as u8
    }
}

/// The time, and when the underlying opened, if it has; both in milliseconds after midnight.
#[derive(Clone, Copy, PartialEq, Eq, Debug)]
pub struct Moment {
    pub time: u32,
    pub underlying: Option<u32>,
}

impl Moment {
    /// Whether the underlying has been open for so long.
    fn is_open_for(self, span: u32) -> bool
        ensures { result ≡ open_for span self.time self.underlying }
    {
        self.underlying
            .is_some_and(|opened| span <= self.time.saturating_sub(opened))
    }

    /// Whether the underlying opened later than this.
    pub fn opens_later(self) -> bool
        ensures { result ≡ opens_later self.time self.underlying }
    {
        self.underlying.is_some_and(|opened| self.time < opened)
    }
}

fn is_above(bid: Option<u32>, offer: Option<u32>) -> bool
    ensures { result ≡ above bid offer }
{
    matches!((bid, offer), (Some(bid), Some(offer)) if offer < bid)
}

fn has_too_few_quotes(window: u32, book: &Book, moment: Moment) -> bool
    ensures { result ≡ too_few_quotes window (rows_of book.now) moment.time moment.underlying }
{
    let needed = if moment.is_open_for(window) { 1 } else { 2 };
    !book.has_quote(1) && book.other_makers() < needed
}

/// Whether a series may look for its price; else the first reason to wait that applies.
pub fn check_ready<M: ShownMarket>(
    settings: Settings,
    book: &Book,
    market: &M,
    moment: Moment,
) -> Result<(), Reason>
    ensures { result ≡ unless_waiting (reason_to_wait settings (rows_of book.now) (M.ShownMarket.shown market.now) moment.time moment.underlying) }
{
    if moment.time < TRADING_BEGINS {
        return Err(Reason::TooEarly);
    }
    if !moment.is_open_for(settings.underlying) {
        return Err(Reason::UnderlyingNotOpen);
    }
    if is_above(market.best(Side::Buy), market.best(Side::Sell)) {
        return Err(Reason::AwayCrossed);
    }
    if has_too_few_quotes(settings.window, book, moment) {
        return Err(Reason::TooFewQuotes);
    }
    Ok(())
}
