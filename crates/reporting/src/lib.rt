//! What every report of a session file has: how much of its input it needs, its first line, and the line of a refusal.

#![tactic(auto)]

ghost use Rattle.std.specs.Prelude.{◌≡◌, ◌++◌, IfOk, string_bytes};
ghost use Rattle.market.specs.Causes.{cause};
ghost use Rattle.reporting.specs.Told.{first_line, refused_line};

use market::refusal::Refusal;
use session::file::LARGEST_FILE;
use std::alloc::{AllocError, Global};

/// How much of an input a report needs: one byte more than the largest session file, so that longer input is refused
/// as too large and endless input is not read on.
pub const MOST_INPUT: u64 = LARGEST_FILE as u64 + 1;

/// The first line of every report: the names of the columns.
pub const FIRST_LINE: &str = "event,answer,price,shares\n";

/// The report of a refused file. It fails only for want of memory.
pub fn refused_text(heap: Global, refusal: Refusal) -> Result<String, AllocError>
    ensures { IfOk result (λ t. string_bytes t ≡ first_line ++ refused_line (cause refusal)) }
{
    format!(in heap; "{FIRST_LINE}refused,{refusal}\n")
}

#[cfg(test)]
mod tests {
    use super::*;
    use std::test::Fail;

    #[test]
    fn a_refusal_is_told(rt: HostRuntime) -> Result<(), Fail> {
        let text = refused_text(rt.alloc(), Refusal::BodyLength(31))?;
        assert_eq!(rt;
            text.as_str(),
            "event,answer,price,shares\nrefused,4,2,31\n"
        );
        Ok(())
    }
}
