//! What the calls do to the auction book.

ghost use Rattle.std.specs.Prelude.{◌≡◌, ◌<◌, [], ◌∷◌, ◌++◌, length, IfSome, IfOk};
ghost use Rattle.auction.specs.Rows.{accepted, left_at, lowered, place_of, taken_at};

use super::{AuctionBook, MOST_ACCEPTED};
use market::order::{Order, OrderTerms};
use std::alloc::{AllocError, Global};

impl AuctionBook {
    /// An empty book, with memory for all the orders that it may hold.
    pub fn new(heap: Global) -> Result<AuctionBook, AllocError>
        ensures { IfOk result (λ b. accepted b ≡ []) }
    {
        let rows = Vec::with_capacity(heap, MOST_ACCEPTED)?;
        Ok(AuctionBook { rows })
    }

    pub(crate) fn clear(&mut self)
        ensures { accepted self.new ≡ [] }
    {
        self.rows.clear();
    }

    pub(crate) fn append(&mut self, order: Order)
        requires { length (accepted self.old) < 256 }
        ensures { accepted self.new ≡ accepted self.old ++ order.terms ∷ [] }
    {
        self.rows.push_reserved(order.terms);
    }

    /// The place of the order with an entry number.
    pub(crate) fn find(&self, entry_number: u16) -> Option<usize>
        ensures value { result ≡ place_of (accepted self.now) entry_number }
        ensures within { IfSome result (λ i. i < length (accepted self.now)) }
    {
        self.rows.iter().position(|row| row.entry == entry_number)
    }

    /// Takes up to the asked shares off the order at a place, and answers those taken.
    pub(crate) fn withdraw(&mut self, place: usize, asked: u32) -> u32
        requires { place < length (accepted self.old) }
        ensures taken { result ≡ taken_at (accepted self.old) asked place }
        ensures left { accepted self.new ≡ left_at (accepted self.old) asked place }
    {
        let shares = self.rows[place].shares;
        if shares <= asked {
            let _ = self.rows.remove(place);
            return shares;
        }
        lower(&mut self.rows[place], asked);
        asked
    }
}

/// Lowers the shares of one order, which keeps some. The row is lent to a function of its own by a rule of the project: a row
/// is changed in one place.
fn lower(row: &mut OrderTerms, by: u32)
    requires { by < row.old.shares }
    ensures { row.new ≡ lowered row.old by }
{
    row.shares -= by;
}
