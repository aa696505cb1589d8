//! A price in a range, and what executes there.

ghost use Rattle.std.specs.Prelude.{◌≡◌};
ghost use Rattle.cross.specs.Fills.{willing};
ghost use Rattle.cross.specs.Levels.{asks_at};

use crate::limit::limit_of;
use market::order::{Order, Side};
use market::price::Price;
use market::range::PriceRange;

/// A price, by counted prices in a range, and the shares that execute there on each side.
#[derive(Clone, Copy)]
pub(crate) struct Level {
    pub range: PriceRange,
    pub price: Price,
    pub executed: u32,
}

impl Level {
    /// Whether an order is willing at the price, by its counted price.
    fn is_willing(self, order: Order) -> bool
        ensures { result ≡ willing self.range.lowest.cents self.range.highest.cents self.price.cents order.terms }
    {
        let limit = limit_of(self.range.counted(order).terms.price);
        match order.terms.side {
            Side::Buy => self.price.cents <= limit,
            Side::Sell => limit <= self.price.cents,
        }
    }

    /// The shares that an order asks for: its own, if it is willing.
    pub(crate) fn asked(self, order: Order) -> u32
        ensures { result ≡ asks_at self order.terms }
    {
        if self.is_willing(order) {
            order.terms.shares
        } else {
            0
        }
    }
}
