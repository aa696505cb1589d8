//! The record of an event.

ghost use Rattle.std.proofs.Common.{refl, rules};
ghost use Rattle.session.specs.declared.body.BodyKind.TheVariants.{Events};
ghost use Rattle.session.specs.Faults.{fields_of_event};
ghost use Rattle.session.specs.Records.{event_size};

use crate::field::first_bad_field;
use crate::record::Record;
use crate::record::fields::event_fields;

/// The kind of records that an events body has.
#[derive(Clone, Copy)]
pub struct EventRecord;

impl Record for EventRecord {
    const SIZE: usize = 16;

    ghost SIZE = { event_size };

    ghost body = { Events };

    ghost fields = { fields_of_event };

    ghost some = { Prim.search rules };

    ghost repeated = { λ bs. refl };

    fn first_bad(bytes: &[u8], at: usize) -> Option<usize> {
        first_bad_field(bytes, at, &event_fields(bytes[at + 4], bytes[at + 5]))
    }
}
