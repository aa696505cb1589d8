//! Going over a book.

ghost use Rattle.std.specs.Prelude.{◌≡◌};
ghost use Rattle.std.specs.Iterator.{YieldsFirstBy, item_count};
ghost use Rattle.book.specs.Going.{ahead};

use crate::Book;
use market::order::Order;

/// The orders of a book, by rising place.
#[derive(Drop)]
pub struct Orders<'b, B> {
    book: &'b B,
    place: usize,
}

impl<'b, B: Book> Iterator for Orders<'b, B> {
    type Item = Order;

    ghost next_gives = { YieldsFirstBy (λ o. o.terms) (ahead B.Book.orders) };

    ghost remaining = { item_count (ahead B.Book.orders) };

    fn next(&mut self) -> Option<Order> {
        // A book is asked until it has no more: a `Range` would need its end, and a ghost field to say so.
        let order = self.book.order(self.place)?;
        self.place += 1;
        Some(order)
    }
}

impl<'b, B: Book> Orders<'b, B> {
    pub(crate) fn of(book: &'b B) -> Orders<'b, B>
        ensures { ahead B.Book.orders result ≡ B.Book.orders book.now }
    {
        Orders { book, place: 0 }
    }
}
