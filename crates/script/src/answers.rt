//! Answers, as the lines that are printed.
ghost use Rattle.std.specs.Prelude.{◌≡◌, Some};
ghost use Rattle.script.specs.AnswerTexts.{shares_text, price_text, quick_text, ranges_text, answer_text, yes_or_no};

use pricing::search::Choice;
use ranges::Range;
use std::fmt;

/// The answer to `share`: what each row of a level gets, in row order.
#[derive(Clone, Copy)]
pub struct Shares<'a>(pub &'a [u32]);

/// A chosen price.
#[derive(Clone, Copy)]
pub struct PriceAnswer(pub Choice);

/// The quick range, if there is one, the opening range, and whether the quotes make a quality market.
#[derive(Clone, Copy)]
pub struct RangesAnswer {
    pub quick: Option<Range>,
    pub opening: Range,
    pub quality: bool,
}

/// What any other line of a script is answered.
#[derive(Clone, Copy)]
pub enum Answer {
    /// The away market was changed.
    Away,
    Count { contracts: u32 },
    /// The best price of a side, if it shows one.
    Best(Option<u32>),
    Sent { contracts: u32 },
    /// How many rows now stand.
    Row { rows: usize },
    Rows { rows: usize },
    /// No row more fits.
    Full,
    /// The price that is chosen, if there is one.
    Price(Option<PriceAnswer>),
    Ranges(RangesAnswer),
    Valid(bool),
    /// The line with that number is no call.
    NotUnderstood { line: u64 },
}

fn yes_or_no(answer: bool) -> &'static str
    ensures { result.now ≡ yes_or_no answer }
{
    if answer { "yes" } else { "no" }
}

impl fmt::Display for Shares<'_> {
    ghost output = { λ s. Some (shares_text s.0.now) };

    fn fmt<W: fmt::Write>(&self, f: &mut fmt::Formatter<W>) -> fmt::Result {
        write!(f, "shares")?;
        for share in self.0 {
            write!(f, " {share}")?;
        }
        Ok(())
    }
}

impl fmt::Display for PriceAnswer {
    ghost output = { λ p. Some (price_text p.0) };

    fn fmt<W: fmt::Write>(&self, f: &mut fmt::Formatter<W>) -> fmt::Result {
        let price = self.0.price;
        let volume = self.0.volume;
        let side = self.0.unmatched.side().map_or(0, u8::from);
        let unmatched = self.0.unmatched.contracts();
        let through = self.0.through;
        write!(f, "price {price} volume {volume} side {side}")?;
        write!(f, " unmatched {unmatched} through {through}")
    }
}

// The quick range alone.
#[derive(Clone, Copy)]
struct QuickAnswer(Option<Range>);

impl fmt::Display for QuickAnswer {
    ghost output = { λ q. Some (quick_text q.0) };

    fn fmt<W: fmt::Write>(&self, f: &mut fmt::Formatter<W>) -> fmt::Result {
        match self.0 {
            Some(range) => write!(f, "quick {range}"),
            None => write!(f, "quick none"),
        }
    }
}

impl fmt::Display for RangesAnswer {
    ghost output = { λ r. Some (ranges_text r) };

    fn fmt<W: fmt::Write>(&self, f: &mut fmt::Formatter<W>) -> fmt::Result {
        let quick = QuickAnswer(self.quick);
        let opening = self.opening;
        let quality = yes_or_no(self.quality);
        write!(f, "{quick} opening {opening} quality {quality}")
    }
}

impl fmt::Display for Answer {
    ghost output = { λ a. Some (answer_text a) };

    fn fmt<W: fmt::Write>(&self, f: &mut fmt::Formatter<W>) -> fmt::Result {
        match *self {
            Answer::Away => write!(f, "away"),
            Answer::Count { contracts } => write!(f, "count {contracts}"),
            Answer::Best(Some(price)) => write!(f, "best {price}"),
            Answer::Best(None) => write!(f, "none"),
            Answer::Sent { contracts } => write!(f, "sent {contracts}"),
            Answer::Row { rows } => write!(f, "row {rows}"),
            Answer::Rows { rows } => write!(f, "rows {rows}"),
            Answer::Full => write!(f, "full"),
            Answer::Price(Some(choice)) => write!(f, "{choice}"),
            Answer::Price(None) => write!(f, "no price"),
            Answer::Ranges(ranges) => write!(f, "{ranges}"),
            Answer::Valid(true) => write!(f, "yes"),
            Answer::Valid(false) => write!(f, "no"),
            Answer::NotUnderstood { line } => write!(f, "line {line}: not understood"),
        }
    }
}
