//! The auction book as a book.

ghost use Rattle.auction.specs.Rows.{accepted, accepted_short};

use super::AuctionBook;
use book::Book;
use market::order::Order;

impl Book for AuctionBook {
    ghost orders = { accepted };

    ghost short = { accepted_short };

    fn count(&self) -> usize {
        self.rows.len()
    }

    fn order(&self, place: usize) -> Option<Order> {
        let terms = *self.rows.get(place)?;
        Some(Order { terms })
    }
}
