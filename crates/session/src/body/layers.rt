//! Layers 2 and 3: the lengths of the bodies, and their fields.

ghost use Rattle.std.specs.Prelude.{◌≡◌, true, length, Option, Result, MatchResult};
ghost use Rattle.market.specs.Causes.{Cause};
ghost use Rattle.market.specs.declared.refusal.Refusal.{Refusal};
ghost use Rattle.session.specs.declared.body.BodyKind.{BodyKind};
ghost use Rattle.session.specs.Told.{Told};
ghost use Rattle.session.specs.Contents.{body};
ghost use Rattle.session.specs.Faults.{bad_field, first_of, fits, wrong_field, wrong_length};
ghost use Rattle.session.specs.Handed.{bytes_of, kind_of};

use super::contents::{FittedFile, LaidFile};
use super::{Body, BodyKind};
use crate::events::EventRecord;
use crate::field::first_bad_field;
use crate::record::fields::heading_fields;
use crate::record::walk::first_bad_in;
use crate::record::{HEADING_SIZE, Record};
use crate::resting::{MOST_RESTING, OrderRecord};
use market::refusal::Refusal;

impl<'a> Body<'a> {
    /// Whether a body of its kind can have its length.
    fn fits(self) -> bool
        ensures { result ≡ fits (kind_of self.entry) (length (bytes_of self.entry)) }
    {
        match self {
            Body::Heading(bytes) => bytes.len() == HEADING_SIZE,
            Body::Resting(bytes) => {
                bytes.len() % OrderRecord::SIZE == 0
                    && bytes.len() <= OrderRecord::SIZE * MOST_RESTING
            }
            Body::Events(bytes) => bytes.len() % EventRecord::SIZE == 0,
            Body::Note(_) => true,
        }
    }

    pub(crate) fn bytes(self) -> &'a [u8]
        ensures { result.now ≡ bytes_of self.entry }
    {
        match self {
            Body::Heading(bytes) | Body::Resting(bytes) | Body::Events(bytes) | Body::Note(bytes) =>
                bytes,
        }
    }

    /// The first field that is outside its values.
    fn first_bad(self) -> Option<usize>
        requires { fits (kind_of self) (length (bytes_of self)) ≡ true }
        ensures { result ≡ bad_field (kind_of self.entry) (bytes_of self.entry) }
    {
        match self {
            Body::Heading(bytes) => first_bad_field(bytes, 0, &heading_fields()),
            Body::Resting(bytes) => first_bad_in::<OrderRecord>(bytes),
            Body::Events(bytes) => first_bad_in::<EventRecord>(bytes),
            Body::Note(_) => None,
        }
    }
}

impl<'a> LaidFile<'a> {
    /// The body of a kind, as the bytes of the file that it is; an absent one has none.
    pub(crate) fn body(self, kind: BodyKind) -> Body<'a>
        ensures kind { kind_of result ≡ kind }
        ensures bytes { bytes_of result ≡ body self.entry.listed.bytes.now kind }
    {
        let from = self.listed.start_of(kind);
        let bytes = &self.listed.bytes[from..from + self.listed.length_of(kind)];
        match kind {
            BodyKind::Heading => Body::Heading(bytes),
            BodyKind::Resting => Body::Resting(bytes),
            BodyKind::Events => Body::Events(bytes),
            BodyKind::Note => Body::Note(bytes),
        }
    }

    /// Refuses a body whose length is none of its kind, by the byte where it begins.
    fn check_length(self, kind: BodyKind) -> Result<(), Refusal>
        ensures { Told result (wrong_length self.entry.listed.bytes.now kind) }
    {
        if self.body(kind).fits() {
            return Ok(());
        }
        Err(Refusal::BodyLength(self.listed.start_of(kind) as u16))
    }

    /// Refuses a file with a body of a wrong length, by the first such body.
    pub(crate) fn check_lengths(self) -> Result<FittedFile<'a>, Refusal>
        ensures same { MatchResult result (λ fitted. fitted.laid.listed.bytes.now ≡ self.entry.listed.bytes.now) (λ _. Unit {0}) }
        ensures told { Told result (first_of (wrong_length self.entry.listed.bytes.now)) }
    {
        check_bodies(|kind| self.check_length(kind))?;
        Ok(FittedFile { laid: self })
    }
}

impl<'a> FittedFile<'a> {
    /// Refuses a body with a field outside its values, by the first byte of the first such field.
    fn check_fields_of(self, kind: BodyKind) -> Result<(), Refusal>
        ensures { Told result (wrong_field self.entry.laid.listed.bytes.now kind) }
    {
        match self.laid.body(kind).first_bad() {
            Some(byte) => Err(Refusal::FiledField((self.laid.listed.start_of(kind) + byte) as u16)),
            None => Ok(()),
        }
    }

    /// Refuses a file with a field outside its values, by the first such byte.
    pub(crate) fn check_fields(self) -> Result<(), Refusal>
        ensures { Told result (first_of (wrong_field self.entry.laid.listed.bytes.now)) }
    {
        check_bodies(|kind| self.check_fields_of(kind))
    }
}

/// Checks each body, up to the first that is refused.
fn check_bodies<F: Fn(BodyKind) -> Result<(), Refusal>>(check: F) -> Result<(), Refusal>
    requires { F.IsAlwaysCallable check }
    ensures { (f : BodyKind → Option Cause) → ((k : BodyKind) (r : Result (Unit {0}) Refusal) → F.post check k r → Told r (f k)) → Told result (first_of f) }
{
    for kind in BodyKind::ALL {
        check(kind)?;
    }
    Ok(())
}
