//! The auction book.

ghost use Rattle.std.specs.Prelude.{ℕ, ◌<◌, ◌≤◌, vec_len, vec_capacity, slice_index_or};
ghost use Rattle.market.specs.Orders.{Sound};
ghost use Rattle.cross.specs.Fills.{no_order};

use market::order::OrderTerms;

mod listing;
pub(crate) mod rows;

/// The most orders that the auction book holds.
pub const MOST_ACCEPTED: usize = 256;

/// The accepted orders of an auction, in order of acceptance. Its memory is got when it is made, so that no order is
/// refused for want of memory; nothing but a start and the calls of the auction's stages writes it.
#[derive(Drop)]
pub struct AuctionBook {
    // Of terms, so that the book's list is the rows themselves: with `Order` here each proof would go over a map of them.
    rows: Vec<OrderTerms>,
    ghost few: { vec_len rows ≤ 256 },
    ghost room: { 256 ≤ vec_capacity rows },
    ghost sound: { (k : ℕ) → k < vec_len rows → Sound (slice_index_or rows.items k no_order) },
}
