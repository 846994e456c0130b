//! The plain words that every crate shares: sides, classes, limits, bounds and refusals.
#![tactic(auto)]

ghost use Rattle.std.specs.Prelude.{◌≡◌, Some};
ghost use Rattle.interest.specs.Bounds.{priced, sized, maker_numbered};
ghost use Rattle.interest.specs.Sides.{opposite, side_number};
ghost use Rattle.interest.specs.Refusals.{number_of};

/// The highest price, in cents; the lowest is 1.
pub const TOP_PRICE: u32 = 100_000;

/// The largest size, in contracts; the smallest is 1.
pub const TOP_SIZE: u32 = 1_000_000;

/// The highest maker number; the lowest, 1, is the Primary Market Maker's.
pub const MAKERS: u32 = 16;

/// Buys and bids are on one side, sells and offers on the other. A side is told by its number, and none by 0.
#[derive(Clone, Copy, Debug, PartialEq, Eq)]
pub enum Side {
    Buy = 1,
    Sell = 2,
}

impl From<Side> for u8 {
    ghost from_gives = { λ side n. n ≡ side_number (Some side) };

    fn from(side: Side) -> u8 {
        side as u8
    }
}

impl Side {
    /// The other side.
    pub fn opposite(self) -> Side
        ensures { result ≡ opposite self }
    {
        match self {
            Side::Buy => Side::Sell,
            Side::Sell => Side::Buy,
        }
    }
}

/// Whose interest it is: a customer's that may be routed away, a customer's marked do-not-route, or anyone else's.
#[derive(Clone, Copy, PartialEq, Eq, Debug)]
pub enum Class {
    Routable,
    Fixed,
    Other,
}

/// At what price a row may trade: at any, or at a price or better. Not an `Option`: of a price that is not there one would
/// not read that any will do.
#[derive(Clone, Copy, PartialEq, Eq, Debug)]
pub enum Limit {
    Market,
    At(u32),
}

/// Why a call is refused, by the number that is told of it.
#[derive(Clone, Copy, PartialEq, Eq, Debug)]
pub enum Refusal {
    SettingOutOfBounds = 1,
    SeriesOpen = 2,
    TimeOutOfBounds = 3,
    NumberOutOfBounds = 4,
    SizeOutOfBounds = 5,
    PriceNotPermitted = 6,
    NumberStanding = 7,
    NothingStanding = 8,
    BookFull = 9,
    BidNotBelowOffer = 10,
    QuoteTooWide = 11,
}

impl From<Refusal> for u8 {
    ghost from_gives = { λ refusal n. n ≡ number_of refusal };

    fn from(refusal: Refusal) -> u8 {
        refusal as u8
    }
}

/// Whether a number is a price: a whole cent from 1 to 100,000.
pub fn is_price(price: u32) -> bool
    ensures { result ≡ priced price }
{
    (1..=TOP_PRICE).contains(&price)
}

/// Whether a number is a size: from 1 to 1,000,000 contracts.
pub fn is_size(size: u32) -> bool
    ensures { result ≡ sized size }
{
    (1..=TOP_SIZE).contains(&size)
}

/// Whether a number is a maker's: from 1 to 16.
pub fn is_maker(maker: u32) -> bool
    ensures { result ≡ maker_numbered maker }
{
    (1..=MAKERS).contains(&maker)
}
