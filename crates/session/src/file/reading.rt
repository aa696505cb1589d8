//! Reading a file.

ghost use Rattle.std.specs.Prelude.{◌≡◌, true, false, Some, None, MatchOption, MatchResult};
ghost use Rattle.market.specs.Causes.{cause};
ghost use Rattle.session.specs.Faults.{fault};
ghost use Rattle.session.specs.Contents.{body};
ghost use Rattle.session.specs.Handed.{bytes_of, kind_of};
ghost use Rattle.session.specs.Reading.{Accepts, Reads, holds};

use super::SessionFile;
use crate::body::contents::{LaidFile, ListedFile, check_contents};
use crate::body::{Body, BodyKind};
use crate::events::FiledEvents;
use crate::field::four_at;
use crate::heading::Heading;
use crate::resting::FiledBook;
use market::price::Price;
use market::ranking::RankingName;
use market::refusal::Refusal;
use std::marker::PhantomData;

/// Layer by layer, so that the lowest number is given.
fn check<'a>(file: &'a [u8]) -> Result<LaidFile<'a>, Refusal>
    ensures { MatchResult result (λ laid. (laid.listed.bytes.now ≡ file.now) × (fault file.now ≡ None)) (λ e. fault file.now ≡ Some (cause e)) }
{
    let laid = check_contents(file)?;
    let fitted = laid.check_lengths()?;
    fitted.check_fields()?;
    Ok(laid)
}

/// The session of a file without a cause of refusal.
fn session_of<'a>(file: LaidFile<'a>) -> SessionFile<'a>
    requires { fault file.listed.bytes.now ≡ None }
    ensures { Accepts file.entry.listed.bytes.now result }
{
    let heading = file.body(BodyKind::Heading).bytes();
    let resting = file.body(BodyKind::Resting).bytes();
    let events = file.body(BodyKind::Events).bytes();
    SessionFile {
        file: file.listed.bytes,
        heading: Heading {
            last_sale: Price {
                cents: four_at(heading, 0),
            },
            ranking: RankingName::try_from(heading[4]).unwrap(),
        },
        resting: FiledBook {
            records: resting,
            kind: PhantomData,
        },
        events: FiledEvents {
            records: events,
            kind: PhantomData,
        },
        note: file.body(BodyKind::Note).bytes(),
    }
}

/// Reads a session file whole, or refuses it by one number with the layer and the byte of the cause.
pub fn read<'a>(file: &'a [u8]) -> Result<SessionFile<'a>, Refusal>
    ensures { Reads file.now result }
{
    let laid = check(file)?;
    Ok(session_of(laid))
}

impl<'a> SessionFile<'a> {
    /// A body as the part of the file that it is, told by its case; none where the file lacks it.
    pub fn body(&self, kind: BodyKind) -> Option<Body<'a>>
        ensures { MatchOption result (holds self.now kind ≡ false) (λ b. (holds self.now kind ≡ true) × (kind_of b ≡ kind) × (bytes_of b ≡ body self.now.file.now kind)) }
    {
        let listed = ListedFile { bytes: self.file };
        if !listed.has(kind) {
            return None;
        }
        Some(LaidFile { listed }.body(kind))
    }
}
