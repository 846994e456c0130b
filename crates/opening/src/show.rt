//! An auction and its away market as a table, for a person to read.
use crate::floor::Series;
use crate::venues::Venues;
use auction::Outlook;
use book::row::{Owner, Row, Totals};
use interest::{Class, Limit, Side};
use pricing::search::Choice;
use ranges::Quotes;
use script::answers::{Answer, PriceAnswer};
use stages::Stage;
use std::io;

/// The auction as it stands.
pub(crate) fn print_auction(
    rt: &HostRuntime,
    series: &Series,
    venues: &mut Venues,
) -> io::Result<()> {
    print_rows(rt, series.rows())?;
    print_away(rt, venues)?;
    print_stage(rt, series.stage())?;
    print_totals(rt, "buys", series.totals(Side::Buy))?;
    print_totals(rt, "sells", series.totals(Side::Sell))?;
    if is_sought(series) {
        print_outlook(rt, venues.outlook(series))?;
    }
    Ok(())
}

fn print_rows(rt: &HostRuntime, rows: &[Row]) -> io::Result<()> {
    println!(rt;
        "owner            side   limit    class     size   traded   routed cancelled     left  working    shown"
    )?;
    for row in rows {
        print_row(rt, *row)?;
    }
    Ok(())
}

fn print_row(rt: &HostRuntime, row: Row) -> io::Result<()> {
    print_owner(rt, row.owner)?;
    let side = match row.side {
        Side::Buy => "buy",
        Side::Sell => "sell",
    };
    print!(rt; " {side:<4}")?;
    print_limit(rt, row.limit)?;
    let class = match row.class {
        Class::Routable => "routable",
        Class::Fixed => "fixed",
        Class::Other => "other",
    };
    let Row {
        size,
        traded,
        routed,
        cancelled,
        left,
        working,
        shown,
        ..
    } = row;
    println!(rt;
        " {class:>8}{size:>9}{traded:>9}{routed:>9}{cancelled:>10}{left:>9}{working:>9}{shown:>9}"
    )
}

fn print_owner(rt: &HostRuntime, owner: Owner) -> io::Result<()> {
    match owner {
        Owner::Order(number) => print!(rt; "order {number:<10}"),
        Owner::Quote(maker) => print!(rt; "quote {maker:<10}"),
    }
}

fn print_limit(rt: &HostRuntime, limit: Limit) -> io::Result<()> {
    match limit {
        Limit::Market => print!(rt; "  market"),
        Limit::At(price) => print!(rt; "{price:>8}"),
    }
}

fn print_away(rt: &HostRuntime, venues: &mut Venues) -> io::Result<()> {
    print!(rt; "away bid")?;
    print_best(rt, venues, Side::Buy)?;
    print!(rt; " offer")?;
    print_best(rt, venues, Side::Sell)?;
    println!(rt; "")
}

// The best price of a side, and the contracts shown there.
fn print_best(rt: &HostRuntime, venues: &mut Venues, side: Side) -> io::Result<()> {
    match venues.best(side) {
        Some(price) => {
            let contracts = venues.count(side, price);
            print!(rt; " {price} for {contracts}")
        }
        None => print!(rt; " none"),
    }
}

fn print_stage(rt: &HostRuntime, stage: Stage) -> io::Result<()> {
    match stage {
        Stage::Waiting => println!(rt; "stage waiting"),
        Stage::Gathering { deadline, left } => {
            println!(rt; "stage gathering until {deadline} extra {left}")
        }
        Stage::Routing { deadline, left } => {
            println!(rt; "stage routing until {deadline} extra {left}")
        }
        Stage::Extra { deadline, left } => {
            println!(rt; "stage extra until {deadline} extra {left}")
        }
        Stage::Open => println!(rt; "stage open"),
    }
}

fn print_totals(rt: &HostRuntime, side: &str, totals: Totals) -> io::Result<()> {
    let Totals {
        accepted,
        traded,
        routed,
        cancelled,
        left,
    } = totals;
    println!(rt;
        "{side} accepted {accepted} traded {traded} routed {routed} cancelled {cancelled} left {left}"
    )
}

// Whether the next tick could look for a price: the series is not open, and somebody quotes.
fn is_sought(series: &Series) -> bool {
    if series.stage().is_open() {
        return false;
    }
    series
        .rows()
        .iter()
        .any(|row| matches!(row.owner, Owner::Quote(_)))
}

fn print_outlook(rt: &HostRuntime, outlook: Outlook) -> io::Result<()> {
    let Quotes { bid, offer } = outlook.quotes;
    println!(rt; "quotes bid {bid} offer {offer}")?;
    match outlook.quick {
        Some(range) => println!(rt; "quick range {range}")?,
        None => println!(rt; "quick range none")?,
    }
    let opening = outlook.opening;
    println!(rt; "opening range {opening}")?;
    print_choice(rt, "exchange", outlook.exchange)?;
    print_choice(rt, "routing", outlook.routing)
}

fn print_choice(rt: &HostRuntime, mode: &str, choice: Option<Choice>) -> io::Result<()> {
    let answer = Answer::Price(choice.map(PriceAnswer));
    println!(rt; "{mode} {answer}")
}
