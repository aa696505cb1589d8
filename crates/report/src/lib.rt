//! The report of a session file, as text.

#![tactic(auto)]

ghost use Rattle.std.specs.Prelude.{◌≡◌, ◌++◌, IfOk, string_bytes};
ghost use Rattle.session.specs.Reading.{Accepts, handed};
ghost use Rattle.report.specs.Text.{Reports, first_line, session_lines};

use crate::figures::{Figures, figures_text};
use crate::fills::push_fills;
use book::Book;
use cross::allotment::Allotment;
use reporting::refused_text;
use session::file::{SessionFile, read};
use session::resting::MOST_RESTING;
use std::alloc::{AllocError, Global};

mod figures;
mod fills;
mod pricing;

pub use reporting::MOST_INPUT;

fn accepted_text(heap: Global, session: &SessionFile<'_>) -> Result<String, AllocError>
    requires { Accepts session.now.file.now session.now }
    ensures { IfOk result (λ t. string_bytes t ≡ first_line ++ session_lines (handed session.now)) }
{
    // On the stack: from the heap, a report of 256 orders took 4 KiB more of it, and could fail for memory there.
    let mut list = [Allotment::default(); MOST_RESTING];
    let list = &mut list[..session.resting.count()];
    let figures = Figures::of(&session.resting, session.heading, list);
    let mut text = figures_text(heap, session, figures)?;
    push_fills(&mut text, list)?;
    Ok(text)
}

// Two arms, as in `run_report`: one function for both would take them as closures, and be longer.
/// The report of a session file: what is in it, or the one cause for which it is refused. It fails only for want
/// of memory.
pub fn report(heap: Global, file: &[u8]) -> Result<String, AllocError>
    ensures { IfOk result (λ t. Reports file.now (string_bytes t)) }
{
    match read(file) {
        Ok(session) => accepted_text(heap, &session),
        Err(refusal) => refused_text(heap, refusal),
    }
}
