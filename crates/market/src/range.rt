//! A range of prices.

ghost use Rattle.std.specs.Prelude.{◌≤◌};

use crate::price::Price;

mod collar;
mod making;

/// The prices from a lowest to a highest, both included.
#[derive(Clone, Copy, PartialEq, Eq, Debug)]
pub struct PriceRange {
    pub lowest: Price,
    pub highest: Price,
    ghost ordered: { lowest.cents ≤ highest.cents },
}
