//! Kinds of opening, what an opening is told, and what it reports.
ghost use Rattle.std.specs.Prelude.{◌≡◌, Some};
ghost use Rattle.std.specs.Fmt.{decimal};
ghost use Rattle.clearing.specs.Kinds.{kind_number, routes, is_forced};
ghost use Rattle.clearing.specs.Texts.{two_numbers, price_text, sides_text, report_text};

use ranges::Range;
use std::fmt;

/// How a series opens, by the number that is told of it.
#[derive(Clone, Copy, PartialEq, Eq, Debug)]
pub enum Kind {
    /// Without a trade.
    Plain = 1,
    /// At once, on this exchange alone.
    Quick = 2,
    /// After a message, on this exchange alone.
    Exchange = 3,
    /// With better away prices taken.
    Routed = 4,
    /// When the last message has run out.
    Forced = 5,
}

/// The number by which a kind is told.
impl From<Kind> for u8 {
    ghost from_gives = { λ kind n. n ≡ kind_number kind };

    fn from(kind: Kind) -> u8 {
        kind as u8
    }
}

impl Kind {
    /// Whether contracts are sent to the away market.
    pub(crate) fn routes(self) -> bool
        ensures { result ≡ routes self }
    {
        matches!(self, Kind::Routed | Kind::Forced)
    }

    pub(crate) fn is_forced(self) -> bool
        ensures { result ≡ is_forced self }
    {
        self == Kind::Forced
    }
}

/// What is to be carried out: a price out of bounds is none, and without a price there is no volume.
#[derive(Clone, Copy)]
pub struct Opening {
    pub kind: Kind,
    pub price: Option<u32>,
    pub volume: u32,
    pub range: Range,
}

/// What the rows of a side come to: contracts routed and cancelled, and the best price shown by what rests.
#[derive(Clone, Copy)]
pub struct SideReport {
    pub routed: u32,
    pub cancelled: u32,
    pub best: Option<u32>,
}

/// What an opening reports.
#[derive(Clone, Copy)]
pub struct Report {
    pub kind: Kind,
    pub price: Option<u32>,
    pub volume: u32,
    pub range: Range,
    pub buys: SideReport,
    pub sells: SideReport,
}

/// A kind is told by its number.
impl fmt::Display for Kind {
    ghost output = { λ kind. Some (decimal (kind_number kind)) };

    fn fmt<W: fmt::Write>(&self, f: &mut fmt::Formatter<W>) -> fmt::Result {
        let number = u8::from(*self);
        write!(f, "{number}")
    }
}

/// A price as it is told: 0 for none.
#[derive(Clone, Copy)]
struct Told(Option<u32>);

impl fmt::Display for Told {
    ghost output = { λ told. Some (price_text told.0) };

    fn fmt<W: fmt::Write>(&self, f: &mut fmt::Formatter<W>) -> fmt::Result {
        let price = self.0.unwrap_or(0);
        write!(f, "{price}")
    }
}

/// The numbers of both sides.
#[derive(Clone, Copy)]
struct Both(u32, u32);

impl fmt::Display for Both {
    ghost output = { λ both. Some (two_numbers both.0 both.1) };

    fn fmt<W: fmt::Write>(&self, f: &mut fmt::Formatter<W>) -> fmt::Result {
        let Both(buys, sells) = *self;
        write!(f, "{buys} {sells}")
    }
}

/// What the rows of both sides come to; of two numbers that of the buys comes first.
#[derive(Clone, Copy)]
struct Sides(SideReport, SideReport);

impl fmt::Display for Sides {
    ghost output = { λ sides. Some (sides_text sides.0 sides.1) };

    fn fmt<W: fmt::Write>(&self, f: &mut fmt::Formatter<W>) -> fmt::Result {
        let Sides(buys, sells) = *self;
        let routed = Both(buys.routed, sells.routed);
        let cancelled = Both(buys.cancelled, sells.cancelled);
        let bid = Told(buys.best);
        let offer = Told(sells.best);
        write!(
            f,
            "routed {routed} cancelled {cancelled} best {bid} {offer}"
        )
    }
}

impl fmt::Display for Report {
    ghost output = { λ r. Some (report_text r) };

    fn fmt<W: fmt::Write>(&self, f: &mut fmt::Formatter<W>) -> fmt::Result {
        let kind = self.kind;
        let price = Told(self.price);
        let volume = self.volume;
        let range = self.range;
        let sides = Sides(self.buys, self.sells);
        write!(
            f,
            "opened kind {kind} price {price} volume {volume} range {range} {sides}"
        )
    }
}
