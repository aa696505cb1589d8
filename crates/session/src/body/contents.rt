//! Layer 1: the contents, which say where each body lies.

ghost use Rattle.std.specs.Prelude.{◌≡◌, ◌≤◌, length, Some, None, MatchResult, count_ones};
ghost use Rattle.market.specs.Causes.{cause};
ghost use Rattle.session.specs.Contents.{bit, contents, mask, present, start, told};
ghost use Rattle.session.specs.Fields.{has};
ghost use Rattle.session.specs.Faults.{contents_fault, first_of, wrong_length};

use super::BodyKind;
use crate::field::two_at;
use crate::file::LARGEST_FILE;
use market::refusal::Refusal;

const HIGHEST_MASK: u8 = 15;

/// A file whose mask is one of a file, and whose contents lie in it.
#[derive(Clone, Copy)]
pub(crate) struct ListedFile<'a> {
    pub(crate) bytes: &'a [u8],
    ghost known: { mask bytes.now ≤ 15 },
    ghost tabled: { contents bytes.now ≤ length bytes.now },
}

/// A file that its contents and its bodies make up.
#[derive(Clone, Copy)]
pub(crate) struct LaidFile<'a> {
    pub(crate) listed: ListedFile<'a>,
    ghost laid: { contents_fault listed.bytes.now ≡ None },
}

/// A laid file whose bodies have lengths of their kinds.
#[derive(Clone, Copy)]
pub(crate) struct FittedFile<'a> {
    pub(crate) laid: LaidFile<'a>,
    ghost fitted: { first_of (wrong_length laid.listed.bytes.now) ≡ None },
}

fn ones_in(byte: u8) -> usize
    ensures value { result ≡ count_ones byte }
    ensures bound { result ≤ 8 }
{
    byte.count_ones() as usize
}

impl BodyKind {
    fn bit(self) -> u8
        ensures { result ≡ bit self }
    {
        self as u8
    }

    /// Whether a mask has the body.
    fn is_in(self, mask: u8) -> bool
        ensures { result ≡ has mask (bit self) }
    {
        mask & self.bit() != 0
    }
}

impl<'a> ListedFile<'a> {
    /// Whether the mask has a body.
    pub(crate) fn has(self, kind: BodyKind) -> bool
        ensures { result ≡ present self.entry.bytes.now kind }
    {
        kind.is_in(self.bytes[0])
    }

    /// The length of a body: each bit that is set has one length, the lowest bit first.
    pub(crate) fn length_of(self, kind: BodyKind) -> usize
        ensures value { result ≡ told self.entry.bytes.now kind }
        ensures bound { result ≤ 65535 }
    {
        if !self.has(kind) {
            return 0;
        }
        let before = ones_in(self.bytes[0] & (kind.bit() - 1));
        usize::from(two_at(self.bytes, 1 + 2 * before))
    }

    /// Where a body begins. The bound: contents of at most 17 bytes come before it, since a byte has at most eight ones,
    /// and at most three bodies of at most 65,535 bytes.
    pub(crate) fn start_of(self, kind: BodyKind) -> usize
        ensures value { result ≡ start self.entry.bytes.now kind }
        ensures bound { result ≤ 196622 }
    {
        let first = 1 + 2 * ones_in(self.bytes[0]);
        let heading = self.length_of(BodyKind::Heading);
        let resting = self.length_of(BodyKind::Resting);
        let events = self.length_of(BodyKind::Events);
        match kind {
            BodyKind::Heading => first,
            BodyKind::Resting => first + heading,
            BodyKind::Events => first + heading + resting,
            BodyKind::Note => first + heading + resting + events,
        }
    }
}

/// Refuses a file whose parts do not make it up.
pub(crate) fn check_contents<'a>(file: &'a [u8]) -> Result<LaidFile<'a>, Refusal>
    ensures { MatchResult result (λ laid. laid.listed.bytes.now ≡ file.now) (λ e. contents_fault file.now ≡ Some (cause e)) }
{
    if file.is_empty() || file.len() > LARGEST_FILE {
        return Err(Refusal::FileSize);
    }
    let mask = file[0];
    if mask > HIGHEST_MASK || !BodyKind::Heading.is_in(mask) || file.len() < 1 + 2 * ones_in(mask) {
        return Err(Refusal::Contents);
    }
    let listed = ListedFile { bytes: file };
    let end = listed.start_of(BodyKind::Note) + listed.length_of(BodyKind::Note);
    if end != file.len() {
        return Err(Refusal::FileLength);
    }
    Ok(LaidFile { listed })
}
