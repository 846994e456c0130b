//! What each price of a range comes to, as a table.
use crate::desk::Desk;
use pricing::figures::{Figures, Mode, Unmatched};
use ranges::Range;
use std::io;

fn print_price(rt: &HostRuntime, price: u32, figures: Figures) -> io::Result<()> {
    let Figures {
        buys,
        sells,
        better_offers,
        better_bids,
        usable,
        volume,
        unmatched,
    } = figures;
    let usable = if usable { "yes" } else { "no" };
    let side = match unmatched {
        Unmatched::Nothing => "",
        Unmatched::Buys(_) => " buys",
        Unmatched::Sells(_) => " sells",
    };
    let contracts = unmatched.contracts();
    println!(rt;
        "{price:>7}{buys:>11}{sells:>11}{better_offers:>15}{better_bids:>13}{usable:>8}{volume:>11}{contracts:>11}{side}"
    )
}

/// A line for each price of a range that is a price, under a line of headings.
pub(crate) fn print_curve(
    rt: &HostRuntime,
    desk: &mut Desk,
    mode: Mode,
    range: Range,
) -> io::Result<()> {
    println!(rt;
        "  price       buys      sells  better offers  better bids  usable     volume  unmatched"
    )?;
    for price in range.low..=range.high {
        if let Some(figures) = desk.figures(mode, price) {
            print_price(rt, price, figures)?;
        }
    }
    Ok(())
}
