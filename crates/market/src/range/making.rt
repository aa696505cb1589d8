ghost use Rattle.std.specs.Prelude.{◌≡◌, ◌≤◌, MatchResult};
ghost use Rattle.market.specs.Causes.{at, cause};

use super::PriceRange;
use crate::price::Price;
use crate::refusal::Refusal;

impl PriceRange {
    /// The range between two prices.
    pub fn new(lowest: Price, highest: Price) -> Result<PriceRange, Refusal>
        ensures { MatchResult result (λ p. (p.lowest ≡ lowest) × (p.highest ≡ highest)) (λ e. (cause e ≡ at 5 0 0) × (lowest.cents ≤ highest.cents → ⊥)) }
    {
        if lowest > highest {
            return Err(Refusal::Value);
        }
        Ok(PriceRange { lowest, highest })
    }
}

impl From<Price> for PriceRange {
    ghost from_gives = { λ p r. (r.lowest ≡ p) × (r.highest ≡ p) };

    /// The range of one price.
    fn from(only: Price) -> PriceRange {
        PriceRange {
            lowest: only,
            highest: only,
        }
    }
}
