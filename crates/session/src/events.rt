//! The events of a session file, where they lie in it.

use crate::record::filed::FiledRecords;

mod going;
mod listing;
mod record;

pub use going::Events;
pub use record::EventRecord;

/// The records of an events body, each of them an event.
pub type FiledEvents<'a> = FiledRecords<'a, EventRecord>;
