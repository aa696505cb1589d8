//! A price of the share.

ghost use Rattle.market.specs.Prices.{LawfulPrice};

mod making;

/// A price in whole cents, from 1 to 20,000,000.
#[derive(Clone, Copy, PartialEq, Eq, PartialOrd, Ord, Debug)]
pub struct Price {
    pub cents: u32,
    ghost lawful: { LawfulPrice cents },
}
