//! The auction that a script plays.
use crate::venues::Venues;
use answers::AuctionAnswer;
use auction::Auction;
use calls::AuctionCall;
use choices::{NamedLadder, NamedRule};
use interest::Refusal;

/// The auction of a series over a ladder and a sharing rule that a script names.
pub type Series = Auction<NamedLadder, NamedRule>;

/// The answer to any call but `make` and `show`, which are played elsewhere.
pub(crate) fn answer(
    series: &mut Series,
    venues: &mut Venues,
    call: AuctionCall,
) -> Result<AuctionAnswer, Refusal> {
    Ok(match call {
        AuctionCall::Enter(order) => AuctionAnswer::Accepted {
            size: series.enter(order)?,
        },
        AuctionCall::Withdraw { number } => AuctionAnswer::Withdrawn {
            contracts: series.withdraw(number)?,
        },
        AuctionCall::Quote { maker, quote } => AuctionAnswer::Replaced(series.quote(maker, quote)?),
        AuctionCall::Pull { maker } => AuctionAnswer::Pulled(series.pull(maker)?),
        AuctionCall::Tick { time, underlying } => venues.tick(series, time, underlying)?.into(),
        AuctionCall::ReadOrder { number } => series.read_order(number).into(),
        AuctionCall::ReadQuote { maker, side } => series.read_quote(maker, side).into(),
        AuctionCall::Make { .. } | AuctionCall::Show => AuctionAnswer::Nothing,
    })
}
