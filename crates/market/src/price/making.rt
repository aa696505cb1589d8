ghost use Rattle.std.specs.Prelude.{◌≡◌, MatchResult};
ghost use Rattle.market.specs.Causes.{at, cause};
ghost use Rattle.market.specs.Prices.{LawfulPrice};

use super::Price;
use crate::refusal::Refusal;

impl Price {
    pub const LOWEST: u32 = 1;

    pub const HIGHEST: u32 = 20_000_000;

    /// The price of that many cents.
    pub fn new(cents: u32) -> Result<Price, Refusal>
        ensures { MatchResult result (λ p. p.cents ≡ cents) (λ e. (cause e ≡ at 5 0 0) × (LawfulPrice cents → ⊥)) }
    {
        if !(Self::LOWEST..=Self::HIGHEST).contains(&cents) {
            return Err(Refusal::Value);
        }
        Ok(Price { cents })
    }
}
