//! What other venues show: a firm switch over a pair of a single market and a depth table.
use crate::floor::Series;
use auction::Outlook;
use book::book::Book;
use interest::{Refusal, Side};
use ladder::EveryCent;
use market::depth::{DepthLevel, DepthTable};
use market::pair::Pair;
use market::single::SingleMarket;
use market::switch::FirmSwitch;
use market::{Market, ShownMarket};
use pricing::figures::{Figures, Mode, figures_at};
use pricing::scene::Scene;
use pricing::search::Choice;
use ranges::{Away, Range};
use script::answers::Answer;
use script::calls::Call;
use stages::TickAnswer;
use std::alloc::Global;

/// How many levels a script's depth table holds at most; the first 64 count.
const DEPTH_ROOM: usize = 1000;

/// The away market of a script, which keeps what sends leave of it.
#[derive(Drop)]
pub struct Venues {
    firm: bool,
    single: SingleMarket,
    levels: Vec<DepthLevel>,
}

const NOTHING: SingleMarket = SingleMarket {
    bid: None,
    offer: None,
};

/// A script's market, which borrows the levels.
type AwayMarket<'a> = FirmSwitch<Pair<SingleMarket, DepthTable<&'a mut [DepthLevel]>>>;

impl Venues {
    /// Nothing is shown, and the switch is on.
    pub(crate) fn new(heap: Global) -> Venues {
        Venues {
            firm: true,
            single: NOTHING,
            levels: Vec::new(heap),
        }
    }

    /// As new.
    pub(crate) fn clear(&mut self) {
        self.firm = true;
        self.single = NOTHING;
        self.levels.clear();
    }

    /// The answer to a call on the away market; none to any other.
    pub(crate) fn answer(&mut self, call: Call) -> Option<Answer> {
        match call {
            Call::Away { side, entry } => self.single.set(side, entry),
            Call::Depth(level) => self.add_level(level)?,
            Call::DepthClear => self.levels.clear(),
            Call::Firm { on } => self.firm = on,
            Call::Count { side, price } => {
                return Some(Answer::Count {
                    contracts: self.count(side, price),
                });
            }
            Call::Best { side } => return Some(Answer::Best(self.best(side))),
            Call::Send {
                side,
                price,
                contracts,
            } => {
                return Some(Answer::Sent {
                    contracts: self.send(side, price, contracts),
                });
            }
            _ => return None,
        }
        Some(Answer::Away)
    }

    /// Adds a level at the end of the depth table, if there is room.
    fn add_level(&mut self, level: DepthLevel) -> Option<()> {
        if self.levels.len() >= DEPTH_ROOM {
            return None;
        }
        self.levels.push(level).ok()
    }

    /// What `ask` answers of the market; what a send leaves of it is kept.
    fn over<T, F: FnOnce(&mut AwayMarket<'_>) -> T>(&mut self, ask: F) -> T
        requires { F.IsAlwaysCallable ask }
    {
        let mut away = FirmSwitch {
            firm: self.firm,
            market: Pair {
                first: self.single,
                second: DepthTable {
                    table: self.levels.as_mut_slice(),
                },
            },
        };
        let answer = ask(&mut away);
        self.single = away.market.first;
        answer
    }

    pub(crate) fn count(&mut self, side: Side, price: u32) -> u32 {
        self.over(|away| away.count(side, price, u32::MAX))
    }

    pub(crate) fn best(&mut self, side: Side) -> Option<u32> {
        self.over(|away| away.best(side))
    }

    /// The best prices of both sides.
    pub(crate) fn bests(&mut self) -> Away {
        Away {
            bid: self.best(Side::Buy),
            offer: self.best(Side::Sell),
        }
    }

    fn send(&mut self, side: Side, price: u32, contracts: u32) -> u32 {
        self.over(|away| away.send(side, price, contracts))
    }

    /// The choice in a range over the rows of a book, every cent permitted.
    pub(crate) fn choose(
        &mut self,
        book: &Book,
        mode: Mode,
        range: Range,
        close: Option<u32>,
    ) -> Option<Choice> {
        self.over(|away| {
            let scene = Scene {
                ladder: &EveryCent,
                close,
                book,
                market: away,
            };
            scene.choose(mode, range)
        })
    }

    /// What a price comes to over the rows of a book.
    pub(crate) fn figures(&mut self, book: &Book, mode: Mode, price: u32) -> Option<Figures> {
        self.over(|away| figures_at(book, away, mode, price))
    }

    /// Lets an auction act, which may send contracts.
    pub(crate) fn tick(
        &mut self,
        series: &mut Series,
        time: u32,
        underlying: Option<u32>,
    ) -> Result<TickAnswer, Refusal> {
        self.over(|away| series.tick(time, underlying, away))
    }

    /// What the next tick of an auction would find.
    pub(crate) fn outlook(&mut self, series: &Series) -> Outlook {
        self.over(|away| series.outlook(away))
    }
}
