//! A book in a range of prices.

ghost use Rattle.book.specs.Lists.{ranged, ranged_short};

use crate::Book;
use market::order::Order;
use market::range::PriceRange;

/// The orders of a book with their counted prices in a range as limits.
#[derive(Drop)]
pub struct Ranged<B> {
    pub book: B,
    pub range: PriceRange,
}

impl<B: Book + Drop> Book for Ranged<B> {
    ghost orders = { λ r. ranged r.range.lowest.cents r.range.highest.cents (B.Book.orders r.book) };

    ghost short = { λ r. ranged_short r.range.lowest.cents r.range.highest.cents (B.Book.orders r.book) (B.Book.short r.book) };

    fn count(&self) -> usize {
        self.book.count()
    }

    fn order(&self, place: usize) -> Option<Order> {
        self.book
            .order(place)
            .map(|order| self.range.counted(order))
    }
}
