//! What is answered for a book that is priced, and for a quote.

ghost use Rattle.std.specs.Prelude.{◌≡◌, MatchResult};
ghost use Rattle.market.specs.Causes.{at, cause};
ghost use Rattle.market.specs.Ranges.{cents_of, reference_highest, reference_lowest};

use crate::table::{Bounds, Quoted};
use book::Book;
use book::joined::Joined;
use cross::clearing::clearing_price;
use cross::depth::Depth;
use market::price::Price;
use market::quote::Quote;
use market::range::PriceRange;
use market::refusal::Refusal;
use session::file::read;
use std::fmt;

/// Where a book clears: `clears,PRICE,EXECUTED,IMBALANCE`.
#[derive(Clone, Copy)]
pub(crate) struct Clearing {
    price: Price,
    depth: Depth,
}

impl fmt::Display for Clearing {
    fn fmt<W: fmt::Write>(&self, f: &mut fmt::Formatter<W>) -> fmt::Result {
        let cents = self.price.cents;
        let executed = self.depth.executed();
        let imbalance = self.depth.imbalance();
        write!(f, "clears,{cents},{executed},{imbalance}")
    }
}

impl Bounds {
    /// The range between the two numbers of cents.
    fn range(self) -> Result<PriceRange, Refusal>
        ensures { MatchResult result (λ p. (p.lowest.cents ≡ self.low) × (p.highest.cents ≡ self.high)) (λ e. cause e ≡ at 5 0 0) }
    {
        PriceRange::new(Price::new(self.low)?, Price::new(self.high)?)
    }
}

fn clearing_of<B: Book>(bounds: Bounds, book: &B) -> Result<Clearing, Refusal> {
    let range = bounds.range()?;
    let price = clearing_price(book, range, bounds.twice);
    let depth = Depth::of(book, range, price);
    Ok(Clearing { price, depth })
}

/// Prices the resting orders of a file.
pub(crate) fn priced(bounds: Bounds, file: &[u8]) -> Result<Clearing, Refusal> {
    clearing_of(bounds, &read(file)?.resting)
}

/// Prices the resting orders of two files, one after the other.
pub(crate) fn priced_joined(
    bounds: Bounds,
    first: &[u8],
    second: &[u8],
) -> Result<Clearing, Refusal> {
    let first = read(first)?.resting;
    let second = read(second)?.resting;
    clearing_of(bounds, &Joined { first, second })
}

/// The reference range of a quote, and its collar: `collar,REFLOW,REFHIGH,TWICE,LOW,HIGH`.
#[derive(Clone, Copy)]
pub(crate) struct Collared(PriceRange);

impl fmt::Display for Collared {
    fn fmt<W: fmt::Write>(&self, f: &mut fmt::Formatter<W>) -> fmt::Result {
        let reference = self.0;
        let (lowest, highest) = (reference.lowest.cents, reference.highest.cents);
        let twice = reference.twice_middle();
        let collar = reference.collar();
        let (low, high) = (collar.lowest.cents, collar.highest.cents);
        write!(f, "collar,{lowest},{highest},{twice},{low},{high}")
    }
}

/// One side of a quote: 0 is none.
fn side_of(cents: u32) -> Result<Option<Price>, Refusal>
    ensures { MatchResult result (λ p. cents_of p ≡ cents) (λ e. cause e ≡ at 5 0 0) }
{
    match cents {
        0 => Ok(None),
        _ => Ok(Some(Price::new(cents)?)),
    }
}

impl Quoted {
    /// The reference range of the quote and the last sale.
    fn reference(self) -> Result<PriceRange, Refusal>
        ensures { MatchResult result (λ p. (p.lowest.cents ≡ reference_lowest self.bid self.offer self.last_sale) × (p.highest.cents ≡ reference_highest self.bid self.offer self.last_sale)) (λ e. cause e ≡ at 5 0 0) }
    {
        let bid = side_of(self.bid)?;
        let offer = side_of(self.offer)?;
        let last_sale = Price::new(self.last_sale)?;
        Ok(Quote { bid, offer }.reference_range(last_sale))
    }
}

/// The ranges of a quote and a last sale.
pub(crate) fn ranges_of(quoted: Quoted) -> Result<Collared, Refusal> {
    Ok(Collared(quoted.reference()?))
}
