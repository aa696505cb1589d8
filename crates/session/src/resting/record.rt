//! The record of a resting order.

ghost use Rattle.std.proofs.Common.{refl, rules};
ghost use Rattle.session.specs.declared.body.BodyKind.TheVariants.{Resting};
ghost use Rattle.session.specs.Faults.{fields_of_order};
ghost use Rattle.session.specs.Records.{order_size};

use crate::field::first_bad_field;
use crate::record::Record;
use crate::record::fields::order_fields;

/// The kind of records that a resting body has.
#[derive(Clone, Copy)]
pub struct OrderRecord;

impl Record for OrderRecord {
    const SIZE: usize = 12;

    ghost SIZE = { order_size };

    ghost body = { Resting };

    ghost fields = { fields_of_order };

    ghost some = { Prim.search rules };

    ghost repeated = { λ bs. refl };

    fn first_bad(bytes: &[u8], at: usize) -> Option<usize> {
        first_bad_field(bytes, at, &order_fields())
    }
}
