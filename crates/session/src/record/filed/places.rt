//! The records by place.

ghost use Rattle.std.specs.Prelude.{◌≡◌, ◌*◌, ◌/◌, ◌<◌, ◌≤◌, length, MatchOption};

use super::{CleanRecord, FiledRecords};
use crate::record::Record;
use std::marker::PhantomData;

impl<'a, R: Record> FiledRecords<'a, R> {
    /// How many there are.
    pub(crate) fn len(&self) -> usize
        ensures { result ≡ length self.now.records.now / R.SIZE }
    {
        self.records.len() / R::SIZE
    }

    /// The record at a place, counted from 0; none at or past the count.
    pub(crate) fn get(&self, place: usize) -> Option<CleanRecord<'a, R>>
        ensures { MatchOption result (length self.now.records.now / R.SIZE ≤ place) (λ r. (r.bytes.now ≡ self.now.records.now) × (r.at ≡ R.SIZE * place) × (place < length self.now.records.now / R.SIZE)) }
    {
        // The library's `chunks_exact(..).nth(place)` walks to the place, which would make a pass over a book quadratic.
        if place >= self.len() {
            return None;
        }
        Some(CleanRecord {
            bytes: self.records,
            at: R::SIZE * place,
            kind: PhantomData,
        })
    }
}
