//! Books: lists of orders that answer how many they have, and which one stands at a place.

#![tactic(auto)]

ghost use Rattle.std.specs.Prelude.{◌≡◌, ◌≤◌, List, length};
ghost use Rattle.market.specs.declared.order.OrderTerms.{OrderTerms};
ghost use Rattle.book.specs.Answers.{AnswersAt};
ghost use Rattle.book.specs.Going.{ahead};

use crate::orders::Orders;
use market::order::{Order, OrderTerms};

/// The most orders that a book has.
pub const MOST_ORDERS: usize = 4_096;

pub mod joined;
pub mod lent;
pub mod orders;
pub mod ranged;

/// A list of at most 4,096 orders. It answers by that list, and asking changes nothing.
pub trait Book {
    /// The terms of the orders, in the sequence of their places.
    ghost orders: { Self → List OrderTerms };

    /// A book has at most 4,096 orders.
    ghost short: { (b : Self) → length (orders b) ≤ 4096 };

    /// How many orders the book has.
    fn count(&self) -> usize
        ensures { result ≡ length (orders self.now) };

    /// The order at a place, counted from 0; none at or past the count.
    fn order(&self, place: usize) -> Option<Order>
        ensures { AnswersAt (orders self.now) place result };

    /// The orders, by rising place: one look at each.
    final fn iter(&self) -> Orders<'_, Self>
        ensures { ahead orders result ≡ orders self.now }
    {
        Orders::of(self)
    }
}
