//! A session file that was read.

ghost use Rattle.std.specs.Prelude.{◌≡◌, None};
ghost use Rattle.session.specs.Faults.{fault};

use crate::events::FiledEvents;
use crate::heading::Heading;
use crate::resting::FiledBook;

mod reading;

pub use reading::read;

/// How many bytes a session file may have.
pub const LARGEST_FILE: usize = 65_535;

/// A file that `read` accepted. The type itself holds its file only to having no cause of refusal; the rest is what `read`
/// promises of the value that it returns: its heading, orders, events and note are those of its bodies, and an absent
/// body counts as empty.
#[derive(Clone, Copy)]
pub struct SessionFile<'a> {
    pub file: &'a [u8],
    pub heading: Heading,
    pub resting: FiledBook<'a>,
    pub events: FiledEvents<'a>,
    pub note: &'a [u8],
    ghost accepted: { fault file.now ≡ None },
}
