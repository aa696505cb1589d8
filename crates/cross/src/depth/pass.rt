//! One pass over a book.

ghost use Rattle.std.specs.Prelude.{◌≡◌};
ghost use Rattle.cross.specs.Passes.{Adds, Room, depth_by_limits};

use super::Depth;
use crate::limit::limit_of;
use book::Book;
use market::order::{Order, Side};
use market::price::Price;

impl Depth {
    /// With the shares of one order more.
    fn with(self, order: Order, price: Price) -> Depth
        requires { Room 1 self }
        ensures { Adds price.cents order.terms self result }
    {
        let shares = order.terms.shares;
        let limit = limit_of(order.terms.price);
        // Not by `Level::is_willing`: one look at an order gives two sums, at the price and beyond it.
        let mut depth = self;
        match order.terms.side {
            Side::Buy => {
                if price.cents <= limit {
                    depth.bought += shares;
                }
                if price.cents < limit {
                    depth.bought_above += shares;
                }
            }
            Side::Sell => {
                if limit <= price.cents {
                    depth.sold += shares;
                }
                if limit < price.cents {
                    depth.sold_below += shares;
                }
            }
        }
        depth
    }

    /// The depth of a book by the limits of its orders: one look at each order.
    pub(super) fn by_limits<B: Book>(book: &B, price: Price) -> Depth
        ensures { result ≡ depth_by_limits price.cents (B.Book.orders book.now) }
    {
        let mut depth = Depth::default();
        for order in book.iter() {
            depth = depth.with(order, price);
        }
        depth
    }
}
