//! Reads a table of sessions, one to a line, and prints the report of each one's run.
//!
//! A line of the table is `NAME report BYTES`. NAME has letters, digits and '-', and one space stands between each two.
//!
//! BYTES are runs, with ';' between them: a run is pairs of hex digits in lower case, one pair to a byte, and stands
//! as often as the number after a '*' says, once if there is none. So `0102;00*3;0a0b*2` is the file of the bytes
//! 1, 2, 0, 0, 0, 10, 11, 10, 11. An empty file has no letters at all.
//!
//! A session prints `NAME` alone and then the lines of its report, also where the file is refused. A line that is not of
//! this form prints `NAME unreadable`.
//!
//! `table.py` beside this folder writes the table, `stdin`, and what is to be printed, `stdout`, by rules of its own.

#![tactic(auto)]

use cases::{bytes_of, case_of};
use run_report::report;
use std::alloc::Global;
use std::io;
use std::io::{BufRead, BufReader};

/// The file of the text after a name, `report BYTES`. None where it has another form, or where there is no memory for it.
fn session_of(heap: Global, text: &str) -> Option<Vec<u8>> {
    match text.split_once(' ')? {
        ("report", file) => bytes_of(heap, file).ok(),
        _ => None,
    }
}

/// Prints what one line of the table comes to: the report of its session's run, below the name.
fn judge(rt: &HostRuntime, line: &str) -> io::Result<()> {
    let (name, text) = case_of(line);
    match text.and_then(|text| session_of(rt.alloc(), text)) {
        Some(file) => {
            let told = report(rt.alloc(), &file)?;
            // By two writes: the name is out where there is no room for the report.
            println!(rt; "{name}")?;
            rt.print(told.as_str())
        }
        None => println!(rt; "{name} unreadable"),
    }
}

fn main(rt: HostRuntime) -> io::Result<()> {
    for line in BufReader::new(rt.alloc(), rt.stdin())?.lines(rt.alloc()) {
        judge(&rt, line?.as_str())?;
    }
    Ok(())
}
