//! Holdzaus: a session file on standard input, the report of its opening auction on standard output.

#![tactic(auto)]

use report::{MOST_INPUT, report};
use std::io;
use std::io::Read;

// The other program's `main` differs in its report alone; a generic one would be longer than these four lines.
fn main(rt: HostRuntime) -> io::Result<()> {
    let mut file = Vec::new(rt.alloc());
    rt.stdin().take(MOST_INPUT).read_to_end(&mut file)?;
    let text = report(rt.alloc(), &file)?;
    rt.print(text.as_str())
}
