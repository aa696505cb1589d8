//! A book that is lent.

use crate::Book;
use market::order::Order;

/// A read-only view of a book, by which it stands in a pile without being moved there.
#[derive(Drop)]
pub struct Lent<'b, B> {
    pub book: &'b B,
}

impl<'b, B: Book> Book for Lent<'b, B> {
    ghost orders = { λ l. B.Book.orders l.book.now };

    ghost short = { λ l. B.Book.short l.book.now };

    fn count(&self) -> usize {
        self.book.count()
    }

    fn order(&self, place: usize) -> Option<Order> {
        self.book.order(place)
    }
}
