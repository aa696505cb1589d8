//! The lines of the tables of cases, and the bytes of a case.
//!
//! A line is a name, a space and what is asked.
//!
//! BYTES are runs, with ';' between them: a run is pairs of hex digits in lower case, one pair to a byte, and stands
//! as often as the number after a '*' says, once if there is none. So `0102;00*3;0a0b*2` is the file of the bytes
//! 1, 2, 0, 0, 0, 10, 11, 10, 11. An empty file has no letters at all.

#![tactic(auto)]

ghost use Rattle.std.specs.Prelude.{◌≡◌, None, Some, IfOk, IfErr, MatchOption, OnOk, option_copied};
ghost use Rattle.cases.specs.Lines.{name_of, text_of};
ghost use Rattle.cases.specs.Runs.{digits_of, spelled, times_of, with_pairs, with_run};

use crate::hex::pair;
use crate::unread::Unread;
use std::alloc::Global;

mod hex;
pub mod unread;

/// The most bytes that a case may have, so that a wrong table does not fill the memory. The largest lawful file has
/// fewer.
const MOST_BYTES: usize = 70_000;

/// Appends the bytes of pairs of hex digits.
fn append_pairs(bytes: &mut Vec<u8>, digits: &[u8]) -> Result<(), Unread>
    ensures ok { OnOk result (with_pairs digits.now bytes.old.items ≡ Some bytes.new.items) }
    ensures err { IfErr result (λ e. e ≡ Unread.NotRuns → with_pairs digits.now bytes.old.items ≡ None) }
{
    let (pairs, []) = digits.as_chunks::<2>() else {
        return Err(Unread::NotRuns);
    };
    for [high, low] in pairs {
        if bytes.len() >= MOST_BYTES {
            return Err(Unread::NotRuns);
        }
        bytes.push(pair(*high, *low).ok_or(Unread::NotRuns)?)?;
    }
    Ok(())
}

/// The digits of a run, and how often they stand.
fn parts_of(run: &str) -> Option<(&str, u32)>
    ensures { MatchOption result (times_of run.now ≡ None) (λ p. (p.0.now ≡ digits_of run.now) × (times_of run.now ≡ Some p.1)) }
{
    let Some((digits, times)) = run.split_once('*') else {
        return Some((run, 1));
    };
    Some((digits, times.parse().ok()?))
}

/// Appends the bytes of a run as often as it stands.
fn append_run(bytes: &mut Vec<u8>, run: &str) -> Result<(), Unread>
    ensures ok { OnOk result (with_run run.now bytes.old.items ≡ Some bytes.new.items) }
    ensures err { IfErr result (λ e. e ≡ Unread.NotRuns → with_run run.now bytes.old.items ≡ None) }
{
    let (digits, times) = parts_of(run).ok_or(Unread::NotRuns)?;
    for _ in 0..times {
        append_pairs(bytes, digits.as_bytes())?;
    }
    Ok(())
}

/// The bytes that the runs of a text spell.
pub fn bytes_of(heap: Global, text: &str) -> Result<Vec<u8>, Unread>
    ensures ok { IfOk result (λ v. spelled text.now ≡ Some v.items) }
    ensures err { IfErr result (λ e. e ≡ Unread.NotRuns → spelled text.now ≡ None) }
{
    let mut bytes = Vec::new(heap);
    for run in text.split(';') {
        append_run(&mut bytes, run)?;
    }
    Ok(bytes)
}

/// The name of a line, and the text of what is asked; none where the line has no space.
pub fn case_of(line: &str) -> (&str, Option<&str>)
    ensures name { result.0.now ≡ name_of line.now }
    ensures text { option_copied result.1 ≡ text_of line.now }
{
    match line.split_once(' ') {
        Some((name, text)) => (name, Some(text)),
        None => (line, None),
    }
}

#[cfg(test)]
mod tests {
    use super::*;
    use std::test::Fail;

    #[test]
    fn runs_are_spelled(rt: HostRuntime) -> Result<(), Fail> {
        let file = bytes_of(rt.alloc(), "0102;00*3;0a0b*2")?;
        assert_eq!(rt; file.as_slice(), [1, 2, 0, 0, 0, 10, 11, 10, 11].as_slice());
        assert_eq!(rt; bytes_of(rt.alloc(), "")?.len(), 0);
        Ok(())
    }
}
