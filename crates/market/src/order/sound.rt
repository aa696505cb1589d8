ghost use Rattle.market.specs.Orders.{Sound};

use super::OrderTerms;

/// An order: its limit is a price, its shares are 1 to 1,000,000, its entry number 1 to 65,535, and it does not
/// stay if it is a market order.
#[derive(Clone, Copy, PartialEq, Eq, Debug)]
pub struct Order {
    pub terms: OrderTerms,
    ghost lawful: { Sound terms },
}
