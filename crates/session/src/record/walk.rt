//! The walk over a body's records, to the first field that is outside its values.

ghost use Rattle.std.specs.Prelude.{◌≡◌};
ghost use Rattle.session.specs.Faults.{bad_field};

use super::Record;

/// The first bad field of all the records.
pub(crate) fn first_bad_in<R: Record>(bytes: &[u8]) -> Option<usize>
    ensures { result ≡ bad_field R.body bytes.now }
{
    // A `find_map` over the places was tried, and its proof did not close.
    for k in 0..bytes.len() / R::SIZE {
        if let Some(byte) = R::first_bad(bytes, R::SIZE * k) {
            return Some(byte);
        }
    }
    None
}
