//! An order for the opening auction.

mod making;
mod sound;

pub use making::lawful_shares;
pub use sound::Order;

/// Whether an order buys or sells.
#[derive(Clone, Copy, PartialEq, Eq, Debug)]
pub enum Side {
    Buy,
    Sell,
}

/// At what price an order may trade: at any, or up to (a sell: down to) a limit in cents.
#[derive(Clone, Copy, PartialEq, Eq, Debug)]
pub enum OrderPrice {
    Market,
    Limit(u32),
}

/// What an order says, as plain values. Books list these; `Order` holds those that may exist.
#[derive(Clone, Copy, PartialEq, Eq, Debug)]
pub struct OrderTerms {
    pub side: Side,
    pub price: OrderPrice,
    pub shares: u32,
    /// The entry number, by which an order is cancelled and ranked.
    pub entry: u16,
    /// Whether the order is displayed on the continuous book.
    pub displayed: bool,
    /// Whether what the auction leaves of it goes to the continuous book.
    pub stays: bool,
}
