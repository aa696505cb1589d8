//! Going over the events.

ghost use Rattle.std.specs.Prelude.{◌≡◌, length};
ghost use Rattle.session.specs.Records.{events_in};

use super::FiledEvents;
use std::ops::Range;

mod steps;

/// The events of a file, by rising place.
// Beside the `Orders` of `book`: one for both would need a trait with the item, its list and its laws, and be longer.
#[derive(Drop)]
pub struct Events<'a> {
    filed: FiledEvents<'a>,
    places: Range<usize>,
    ghost counted: { places.end ≡ length (events_in filed.records.now) },
}
