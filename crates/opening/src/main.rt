//! Plays a script: one call a line from standard input, and an answer to each.
#![tactic(auto)]

mod curve;
mod desk;
mod floor;
mod help;
mod show;
mod venues;

use calls::AuctionCall;
use calls::lines::{MorningLine, morning_line_of};
use curve::print_curve;
use desk::Desk;
use help::print_help;
use script::answers::{Answer, Shares};
use script::calls::Call;
use script::lines::Line;
use script::share::ShareCall;
use script::text::words;
use show::print_auction;
use std::io;
use std::io::{BufRead, BufReader};

/// How far the ends of a range may lie apart that is printed price by price.
const CURVE_PRICES: u32 = 1_000;

fn print_shares(rt: &HostRuntime, call: ShareCall) -> io::Result<()> {
    let shares = call.shares();
    let answer = Shares(&shares);
    println!(rt; "{answer}")
}

fn play_auction(rt: &HostRuntime, desk: &mut Desk, call: AuctionCall) -> io::Result<()> {
    if let (AuctionCall::Show, Some(series)) = (call, &desk.series) {
        return print_auction(rt, series, &mut desk.venues);
    }
    let answer = desk.answer_auction(call);
    println!(rt; "{answer}")
}

fn play_call(rt: &HostRuntime, desk: &mut Desk, call: Call, line: u64) -> io::Result<()> {
    match call {
        Call::Help => print_help(rt),
        Call::Curve { mode, range } if range.high.saturating_sub(range.low) <= CURVE_PRICES => {
            print_curve(rt, desk, mode, range)
        }
        _ => {
            let answer = desk.answer(call).unwrap_or(Answer::NotUnderstood { line });
            println!(rt; "{answer}")
        }
    }
}

fn play_line(rt: &HostRuntime, desk: &mut Desk, text: &[u8], line: u64) -> io::Result<()> {
    let words = words(rt.alloc(), text)?;
    match morning_line_of(&words) {
        Some(MorningLine::Auction(call)) => play_auction(rt, desk, call),
        Some(MorningLine::Other(Line::Silent)) => Ok(()),
        Some(MorningLine::Other(Line::Share(call))) => print_shares(rt, call),
        Some(MorningLine::Other(Line::Call(call))) => play_call(rt, desk, call, line),
        None => {
            let answer = Answer::NotUnderstood { line };
            println!(rt; "{answer}")
        }
    }
}

fn main(rt: HostRuntime) -> io::Result<()> {
    let mut desk = Desk::new(rt.alloc());
    let mut input = BufReader::new(rt.alloc(), rt.stdin())?;
    let mut text = Vec::new(rt.alloc());
    for line in 1..u64::MAX {
        text.clear();
        if input.read_until(b'\n', &mut text)? == 0 {
            return Ok(());
        }
        play_line(&rt, &mut desk, &text, line)?;
    }
    Ok(())
}
