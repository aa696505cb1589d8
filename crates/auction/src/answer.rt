//! What a publish and a cross answer.

/// The published figures of an auction. Prices are in cents.
#[derive(Clone, Copy)]
pub struct Figures {
    /// The clearing price of the auction book in the reference range.
    pub reference_price: u32,
    /// The shares that execute at the reference price.
    pub paired_shares: u32,
    /// The shares willing to buy at the reference price less those willing to sell.
    pub imbalance: i64,
    /// The clearing price of the whole book in the collar.
    pub indicative_price: u32,
    /// The clearing price of the auction book in the collar.
    pub auction_price: u32,
    pub collar_lowest: u32,
    pub collar_highest: u32,
    /// Twice the tie-breaker: the sum of the ends of the reference range.
    pub twice_middle: u32,
}

/// What a cross did.
#[derive(Clone, Copy)]
pub struct Outcome {
    /// The price in cents; where no share executed, 0 by the rule, as it is published.
    pub price: u32,
    /// The shares executed on each side.
    pub executed: u32,
    /// The filled shares of the auction book.
    pub filled: u32,
    /// The unfilled shares of its orders that do not stay.
    pub ended: u32,
    /// The unfilled shares of its orders that stay, released to the continuous book.
    pub released: u32,
    /// How many records of the allotment list were written. The list is the caller's: a cross gets no memory.
    pub records: usize,
}
