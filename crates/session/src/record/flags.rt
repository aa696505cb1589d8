//! The flags of an order that is entered, which its record sums.

pub(crate) const SELL: u8 = 1;

pub(crate) const MARKET: u8 = 2;

pub(crate) const STAYS: u8 = 4;

pub(crate) const DISPLAYED: u8 = 8;
