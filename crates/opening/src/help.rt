//! The calls of a script.
use std::io;

/// Prints the calls that are understood.
pub(crate) fn print_help(rt: &HostRuntime) -> io::Result<()> {
    print_auction_calls(rt)?;
    print_inspection_calls(rt)
}

fn print_auction_calls(rt: &HostRuntime) -> io::Result<()> {
    println!(rt; "make LADDER RULE CLOSE UNDERLYING WINDOW IMBALANCE ROUTE EXTRA")?;
    println!(rt;
        "                                                 make an auction, and empty the away market"
    )?;
    println!(rt; "enter NUMBER SIDE PRICE SIZE CLASS               enter an order")?;
    println!(rt; "withdraw NUMBER                                  take an order back")?;
    println!(rt; "quote MAKER BID BIDSIZE OFFER OFFERSIZE          give or replace a quote")?;
    println!(rt; "pull MAKER                                       remove a quote")?;
    println!(rt; "tick TIME UNDERLYING                             let the auction act")?;
    println!(rt; "read order NUMBER | read quote MAKER SIDE        what became of a row")?;
    println!(rt;
        "show                                             the rows, the away market, the stage, and what a tick would find"
    )
}

fn print_inspection_calls(rt: &HostRuntime) -> io::Result<()> {
    println!(rt;
        "share RULE QUANTITY CLASS SIZE [CLASS SIZE ..]   divide a quantity among the rows of a level"
    )?;
    println!(rt;
        "away SIDE PRICE SIZE | depth SIDE PRICE SIZE     show contracts away (size 0 removes the single bid or offer)"
    )?;
    println!(rt;
        "depth clear | firm on | firm off                 empty the depth table, turn the firm switch"
    )?;
    println!(rt; "count SIDE PRICE | best SIDE                     ask what is shown away")?;
    println!(rt; "send SIDE PRICE CONTRACTS                        send contracts away")?;
    println!(rt;
        "row SIDE PRICE SIZE CLASS | rows clear           add a row to the book, or empty it"
    )?;
    println!(rt; "price MODE LOW HIGH CLOSE                        choose a price in a range")?;
    println!(rt;
        "curve MODE LOW HIGH                              what each price of a range comes to"
    )?;
    println!(rt;
        "ranges BID OFFER | valid BID OFFER               the ranges of a quoted market, and whether a quote is valid"
    )
}
