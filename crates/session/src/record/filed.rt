//! The records of an accepted body, where they lie in the file.

ghost use Rattle.std.specs.Prelude.{◌≡◌, ◌+◌, ◌≤◌, true, length, None, ⊤};
ghost use Rattle.session.specs.Faults.{bad_field, fits};
ghost use Rattle.session.specs.Fields.{first_bad};

use super::Record;
use std::alloc::AllocError;
use std::marker::PhantomData;

mod places;

/// The records of a body, each of them without a bad field.
pub struct FiledRecords<'a, R: Record> {
    pub records: &'a [u8],
    pub kind: PhantomData<R>,
    ghost fitting: { fits R.body (length records.now) ≡ true },
    ghost clean: { bad_field R.body records.now ≡ None },
}

// By hand: with a type parameter, a derive or `derive_where` over a ghost field is refused (derive-over-ghost-field).
impl<'a, R: Record> Clone for FiledRecords<'a, R> {
    ghost is_clone = { λ x y. y ≡ x };

    ghost is_infallible = { λ _. ⊤ };

    fn clone(&self) -> Result<Self, AllocError> {
        Ok(*self)
    }
}

impl<'a, R: Record> Copy for FiledRecords<'a, R> {}

/// A record without a bad field, and the byte of the body where it begins.
#[derive(Drop)]
pub(crate) struct CleanRecord<'a, R: Record> {
    pub(crate) bytes: &'a [u8],
    pub(crate) at: usize,
    pub(crate) kind: PhantomData<R>,
    ghost inside: { at + R.SIZE ≤ length bytes.now },
    ghost clean: { first_bad (R.fields bytes.now at) bytes.now at ≡ None },
}
