//! The limit of a price.

ghost use Rattle.std.specs.Prelude.{◌≡◌};
ghost use Rattle.cross.specs.Limits.{limit_of};

use market::order::OrderPrice;

/// The cents of a limit; at its counted price every order has one.
pub(crate) fn limit_of(price: OrderPrice) -> u32
    ensures { result ≡ limit_of price }
{
    // 0 by the definition; no counted price is market.
    match price {
        OrderPrice::Market => 0,
        OrderPrice::Limit(cents) => cents,
    }
}
