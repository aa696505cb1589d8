//! Two books, one after the other.

ghost use Rattle.book.specs.Lists.{joined, joined_short};

use crate::{Book, MOST_ORDERS};
use market::order::Order;

/// The first book's orders and then the second's, cut at the most that a book has.
#[derive(Drop)]
pub struct Joined<A, B> {
    pub first: A,
    pub second: B,
}

impl<A: Book + Drop, B: Book + Drop> Book for Joined<A, B> {
    ghost orders = { λ j. joined (A.Book.orders j.first) (B.Book.orders j.second) };

    ghost short = { λ j. joined_short (A.Book.orders j.first) (B.Book.orders j.second) };

    fn count(&self) -> usize {
        self.first
            .count()
            .saturating_add(self.second.count())
            .min(MOST_ORDERS)
    }

    fn order(&self, place: usize) -> Option<Order> {
        if place >= MOST_ORDERS {
            return None;
        }
        let before = self.first.count();
        if place < before {
            self.first.order(place)
        } else {
            self.second.order(place - before)
        }
    }
}
