//! The report of a session file, as text: its events are run on the auction of its last sale, and each is told with its
//! answer; a file that breaks the layout is told by its one cause.

#![tactic(auto)]

ghost use Rattle.std.specs.Prelude.{◌≡◌, ◌++◌, IfOk, string_bytes};
ghost use Rattle.market.specs.Causes.{cause};
ghost use Rattle.session.specs.Reading.{Accepts, handed};
ghost use Rattle.run_report.specs.Text.{Reports, first_line, refused_line, session_lines};

use crate::answers::push_answers;
use crate::events::answers_of;
use crate::line::push_line;
use auction::auction_book::MOST_ACCEPTED;
use cross::allotment::Allotment;
use market::refusal::Refusal;
use reporting::FIRST_LINE;
use session::file::{SessionFile, read};
use session::resting::MOST_RESTING;
use std::alloc::{AllocError, Global};

mod answers;
mod decimal;
mod events;
mod line;

pub use reporting::MOST_INPUT;

/// The fullest auction book, and the longest resting body behind it.
const MOST_ALLOTMENTS: usize = MOST_ACCEPTED + MOST_RESTING;

// Not the one of `reporting`: tried, and the lemma from the library's decimals to `DecimalRule` wanted more than a refusal tells.
fn refused_text(heap: Global, refusal: Refusal) -> Result<String, AllocError>
    ensures { IfOk result (λ t. string_bytes t ≡ first_line ++ refused_line (cause refusal)) }
{
    let mut text = String::from_str(heap, FIRST_LINE)?;
    let (number, layer, byte) = (refusal.number(), refusal.layer(), refusal.byte());
    push_line(
        &mut text,
        "refused",
        &[i64::from(number), i64::from(layer), i64::from(byte)],
    )?;
    Ok(text)
}

fn accepted_text(heap: Global, session: &SessionFile<'_>) -> Result<String, AllocError>
    requires { Accepts session.now.file.now session.now }
    ensures { IfOk result (λ t. string_bytes t ≡ first_line ++ session_lines (handed session.now)) }
{
    // As long as the definition's `blank_list`, whatever the session: by a rule of the project it has room for every cross.
    let mut list = [Allotment::default(); MOST_ALLOTMENTS];
    let answers = answers_of(heap, session, &mut list)?;
    let mut text = String::from_str(heap, FIRST_LINE)?;
    push_answers(&mut text, &answers, &list)?;
    Ok(text)
}

// Two arms, as in `report`: one function for both would take them as closures, and be longer.
/// The report of a session file: how each of its events is answered, or the one cause for which it is refused. It fails
/// only for want of memory.
pub fn report(heap: Global, file: &[u8]) -> Result<String, AllocError>
    ensures { IfOk result (λ t. Reports file.now (string_bytes t)) }
{
    match read(file) {
        Ok(session) => accepted_text(heap, &session),
        Err(refusal) => refused_text(heap, refusal),
    }
}
