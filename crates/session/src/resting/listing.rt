//! The resting orders as a book.

ghost use Rattle.std.specs.Prelude.{◌≡◌};
ghost use Rattle.session.specs.Filed.{filed_short};
ghost use Rattle.session.specs.Records.{order_at, orders_in};

use super::{FiledBook, OrderRecord};
use crate::field::{four_at, side_of, two_at};
use crate::record::filed::CleanRecord;
use book::Book;
use market::order::{Order, OrderPrice, OrderTerms};

impl<'a> CleanRecord<'a, OrderRecord> {
    /// The order that the record says; resting orders stay.
    fn order(self) -> Order
        ensures { result.terms ≡ order_at self.entry.bytes.now self.entry.at }
    {
        let bytes = self.bytes;
        let at = self.at;
        let terms = OrderTerms {
            side: side_of(bytes[at] != 0),
            price: OrderPrice::Limit(four_at(bytes, at + 4)),
            shares: four_at(bytes, at + 8),
            entry: two_at(bytes, at + 2),
            displayed: bytes[at + 1] == 1,
            stays: true,
        };
        Order { terms }
    }
}

impl<'a> Book for FiledBook<'a> {
    ghost orders = { λ b. orders_in b.records.now };

    ghost short = { λ b. filed_short b.records.now b.fitting };

    #[tactic(auto, using(crate::proofs::FiledRecords::length_orders))]
    fn count(&self) -> usize {
        self.len()
    }

    fn order(&self, place: usize) -> Option<Order> {
        let record = self.get(place)?;
        Some(record.order())
    }
}
