ghost use Rattle.std.specs.Prelude.{◌≡◌, MatchResult};
ghost use Rattle.market.specs.Causes.{at, cause};
ghost use Rattle.market.specs.Orders.{Sound, lawful_shares};

use super::{Order, OrderPrice, OrderTerms};
use crate::price::Price;
use crate::refusal::Refusal;

pub const MOST_SHARES: u32 = 1_000_000;

/// Whether an order may have that many shares.
pub fn lawful_shares(shares: u32) -> bool
    ensures { result ≡ lawful_shares shares }
{
    (1..=MOST_SHARES).contains(&shares)
}

impl Order {
    /// The order of these terms.
    pub fn new(terms: OrderTerms) -> Result<Order, Refusal>
        ensures { MatchResult result (λ o. o.terms ≡ terms) (λ e. (cause e ≡ at 5 0 0) × (Sound terms → ⊥)) }
    {
        match terms.price {
            OrderPrice::Market if terms.stays => return Err(Refusal::Value),
            OrderPrice::Market => {}
            OrderPrice::Limit(cents) => {
                Price::new(cents)?;
            }
        }
        if !lawful_shares(terms.shares) || terms.entry == 0 {
            return Err(Refusal::Value);
        }
        Ok(Order { terms })
    }
}
