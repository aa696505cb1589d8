//! The clearing price of a book in a range.

ghost use Rattle.std.specs.Prelude.{◌≡◌, true, false};
ghost use Rattle.cross.specs.Clearing.{clearing_price};
ghost use Rattle.cross.specs.Serving.{First, served_in, serves};

use crate::depth::Depth;
use book::Book;
use book::lent::Lent;
use book::ranged::Ranged;
use market::order::Side;
use market::price::Price;
use market::range::PriceRange;

impl Depth {
    /// Whether the better-priced shares of a side find as many on the other.
    fn serves(self, side: Side) -> bool
        ensures { result ≡ serves side self }
    {
        match side {
            Side::Buy => self.bought_above <= self.sold,
            Side::Sell => self.sold_below <= self.bought,
        }
    }
}

/// The first served price on the way from an unserved price to a served one: a bisection, one pass to a step.
fn first_served<B: Book + Drop>(ranged: &Ranged<B>, side: Side, from: Price, to: Price) -> Price
    requires unserved { served_in B.Book.orders ranged.now side from.cents ≡ false }
    requires served { served_in B.Book.orders ranged.now side to.cents ≡ true }
    ensures served { served_in B.Book.orders ranged.now side result.cents ≡ true }
    ensures first { First (served_in B.Book.orders ranged.now side) from.cents to.cents result.cents }
{
    // The library's `partition_point` searches a slice, and no slice holds the prices.
    let mut unserved = from;
    let mut found = to;
    while found.cents.abs_diff(unserved.cents) > 1 {
        let middle = Price {
            cents: (unserved.cents + found.cents) / 2,
        };
        if Depth::at(ranged, middle).serves(side) {
            found = middle;
        } else {
            unserved = middle;
        }
    }
    found
}

/// From the price nearest to the tie-breaker: if its better-priced buys are unserved the price rises, if its
/// better-priced sells are, it falls.
fn search<B: Book + Drop>(ranged: &Ranged<B>, twice: u32) -> Price
    ensures { result.cents ≡ clearing_price ranged.now.range.lowest.cents ranged.now.range.highest.cents twice (B.Book.orders ranged.now.book) }
{
    let PriceRange { lowest, highest } = ranged.range;
    let middle = Price {
        cents: (twice / 2).clamp(lowest.cents, highest.cents),
    };
    let depth = Depth::at(ranged, middle);
    // A `for` over the two sides and their ends saves a line, and needs an invariant and its cases: no plainer.
    if !depth.serves(Side::Buy) {
        return first_served(ranged, Side::Buy, middle, highest);
    }
    if !depth.serves(Side::Sell) {
        return first_served(ranged, Side::Sell, middle, lowest);
    }
    middle
}

/// The clearing price of a book in a range; `twice` is twice the tie-breaker. At most 26 passes over the book.
pub fn clearing_price<B: Book>(book: &B, range: PriceRange, twice: u32) -> Price
    ensures { result.cents ≡ clearing_price range.lowest.cents range.highest.cents twice (B.Book.orders book.now) }
{
    // `range` and `twice` go together here and in `cross`: the signatures that callers have stay.
    let ranged = Ranged {
        book: Lent { book },
        range,
    };
    search(&ranged, twice)
}
