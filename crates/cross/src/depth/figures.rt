//! The depth of a book in a range, and its figures.

ghost use Rattle.std.specs.Prelude.{◌≡◌, min, pos, ◌-ℤ◌};
ghost use Rattle.cross.specs.Passes.{depth_at};

use super::Depth;
use book::Book;
use book::lent::Lent;
use book::ranged::Ranged;
use market::price::Price;
use market::range::PriceRange;

impl Depth {
    /// The depth of a book in its range at a price.
    pub(crate) fn at<B: Book + Drop>(ranged: &Ranged<B>, price: Price) -> Depth
        ensures { result ≡ depth_at ranged.now.range.lowest.cents ranged.now.range.highest.cents price.cents (B.Book.orders ranged.now.book) }
    {
        Depth::by_limits(ranged, price)
    }

    /// The depth of a book at a price, by counted prices in a range: one pass over the book.
    pub fn of<B: Book>(book: &B, range: PriceRange, price: Price) -> Depth
        ensures { result ≡ depth_at range.lowest.cents range.highest.cents price.cents (B.Book.orders book.now) }
    {
        let ranged = Ranged {
            book: Lent { book },
            range,
        };
        Depth::at(&ranged, price)
    }

    /// The shares that execute at the price.
    pub fn executed(self) -> u32
        ensures { result ≡ min self.bought self.sold }
    {
        self.bought.min(self.sold)
    }

    /// The shares willing to buy less those willing to sell.
    pub fn imbalance(self) -> i64
        ensures { result ≡ pos self.bought -ℤ pos self.sold }
    {
        i64::from(self.bought) - i64::from(self.sold)
    }
}
