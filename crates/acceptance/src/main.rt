//! Reads a table of cases, one to a line, and prints for each what the crates make of it.
//!
//! A line of the table is a name, a space and what is asked. NAME has letters, digits and '-', the others have no
//! space in them, and one space stands between each two:
//!
//!     NAME BYTES                                        reads a session file
//!     NAME price LOW HIGH TWICE BYTES                   prices the resting orders of a file in a range
//!     NAME joined price LOW HIGH TWICE BYTES BYTES2     likewise those of two files, one after the other
//!     NAME collar BID OFFER LASTSALE                    makes the ranges of a quote and a last sale
//!
//! BYTES are runs, with ';' between them: a run is pairs of hex digits in lower case, one pair to a byte, and stands
//! as often as the number after a '*' says, once if there is none. So `0102;00*3;0a0b*2` is the file of the bytes
//! 1, 2, 0, 0, 0, 10, 11, 10, 11. An empty file has no letters at all. A file that is to be read is alone after the
//! name, with no space in it or after it, so no line has two meanings.
//!
//! LOW and HIGH are the ends of the range and TWICE is twice the tie-breaker; BID, OFFER and LASTSALE are prices, and
//! a BID or an OFFER of 0 is none. All are decimal numbers below 2^32, and prices are in cents.
//!
//! For a refused file the line `NAME refused,NUMBER,LAYER,BYTE` is printed, of two files for the first such one. For
//! an accepted one that is read `NAME read,LASTSALE,RANKING,ORDERS,EVENTS,NOTEBYTES`, where the last three are counts,
//! and then a line for each resting order and a line for each event, of more than sixteen only the first eight and the
//! last eight:
//!
//!     order,PLACE,SIDE,LIMIT,SHARES,ENTRY,DISPLAYED,STAYS
//!     event,PLACE,TIME,enter,SIDE,LIMIT,SHARES,ENTRY,DISPLAYED,STAYS
//!     event,PLACE,TIME,cancel,ENTRY,SHARES
//!     event,PLACE,TIME,quote,BID,OFFER
//!     event,PLACE,TIME,publish     and likewise lock, shut and cross
//!
//! SIDE is buy or sell, LIMIT a price in cents or market, BID and OFFER a price or none, DISPLAYED and STAYS are 0 or
//! 1.
//!
//! A book that is priced prints `NAME clears,PRICE,EXECUTED,IMBALANCE`: the clearing price, the shares that execute
//! there, and the shares willing to buy there less those willing to sell. A quote prints
//! `NAME collar,REFLOW,REFHIGH,TWICE,LOW,HIGH`: the ends of the reference range, their sum, and the ends of the collar.
//! Where LOW, HIGH or a price of the quote is no price, or LOW is above HIGH, `NAME refused,5,0,0` is printed, unless a
//! file is refused.
//!
//! A line that is not of these forms prints `NAME unreadable`.
//!
//! `table.py` beside this folder writes the table, `stdin`, and what is to be printed, `stdout`, by rules of its own.

#![tactic(auto)]

mod answer;
mod pricing;
mod shown;
mod table;

use crate::answer::{Contents, print_records};
use crate::table::{Asked, asked_of};
use cases::case_of;
use market::refusal::Refusal;
use session::file::read;
use std::fmt::Display;
use std::io;
use std::io::{BufRead, BufReader};

/// Prints an answer, or the line of a refusal.
fn print<A: Display + Drop>(
    rt: &HostRuntime,
    name: &str,
    answer: Result<A, Refusal>,
) -> io::Result<()> {
    match answer {
        Ok(answer) => println!(rt; "{name} {answer}"),
        Err(refusal) => println!(rt; "{name} refused,{refusal}"),
    }
}

/// Prints what one line of the table comes to.
fn judge(rt: &HostRuntime, line: &str) -> io::Result<()> {
    let (name, text) = case_of(line);
    match text.and_then(|text| asked_of(rt.alloc(), text)) {
        Some(Asked::Read(file)) => {
            let session = read(&file);
            print(rt, name, session.map(Contents))?;
            if let Ok(session) = session {
                print_records(rt, session)?;
            }
            Ok(())
        }
        Some(Asked::Price(bounds, file)) => print(rt, name, pricing::priced(bounds, &file)),
        Some(Asked::Joined(bounds, first, second)) => {
            print(rt, name, pricing::priced_joined(bounds, &first, &second))
        }
        Some(Asked::Collar(quoted)) => print(rt, name, pricing::ranges_of(quoted)),
        None => println!(rt; "{name} unreadable"),
    }
}

/// Judges each line of the standard input.
fn main(rt: HostRuntime) -> io::Result<()> {
    for line in BufReader::new(rt.alloc(), rt.stdin())?.lines(rt.alloc()) {
        judge(&rt, line?.as_str())?;
    }
    Ok(())
}
