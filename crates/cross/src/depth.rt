//! The shares of a book at a price.

mod figures;
mod pass;

/// The shares of the orders of a book at a price, by their counted prices in a range.
#[derive(Clone, Copy, PartialEq, Eq, Debug, Default)]
pub struct Depth {
    /// Shares willing to buy at the price.
    pub bought: u32,
    /// Shares willing to sell at the price.
    pub sold: u32,
    /// Shares of buys counted above the price.
    pub bought_above: u32,
    /// Shares of sells counted below the price.
    pub sold_below: u32,
}
