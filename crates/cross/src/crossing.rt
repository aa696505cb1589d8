//! Crossing a book.

mod performing;

use market::price::Price;
pub use performing::cross;

/// The price of a cross and the shares that it executes.
#[derive(Clone, Copy)]
pub struct Crossing {
    pub price: Price,
    pub executed: u32,
}
