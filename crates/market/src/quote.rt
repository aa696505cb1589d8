//! The best protected quote of the other markets.

use crate::price::Price;

/// A protected bid and a protected offer, each none or a price.
#[derive(Clone, Copy, PartialEq, Eq, Debug, Default)]
pub struct Quote {
    pub bid: Option<Price>,
    pub offer: Option<Price>,
}
