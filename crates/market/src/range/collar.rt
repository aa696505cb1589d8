ghost use Rattle.std.specs.Prelude.{◌≡◌};
ghost use Rattle.market.specs.Ranges.{collar_highest, collar_lowest, counted, reference_highest, reference_lowest, twice_middle, cents_of};

use super::PriceRange;
use crate::order::{Order, OrderPrice, OrderTerms, Side};
use crate::price::Price;
use crate::quote::Quote;

/// The threshold of the collar is at least this many cents.
const LEAST_THRESHOLD: u32 = 50;

impl Quote {
    /// The range of the quote, or the last sale alone where a side is none or the bid is above the offer.
    pub fn reference_range(self, last_sale: Price) -> PriceRange
        ensures lowest { result.lowest.cents ≡ reference_lowest (cents_of self.bid) (cents_of self.offer) last_sale.cents }
        ensures highest { result.highest.cents ≡ reference_highest (cents_of self.bid) (cents_of self.offer) last_sale.cents }
    {
        match (self.bid, self.offer) {
            (Some(lowest), Some(highest)) if lowest.cents <= highest.cents => {
                PriceRange { lowest, highest }
            }
            _ => PriceRange::from(last_sale),
        }
    }
}

impl PriceRange {
    /// The sum of the two ends: twice the tie-breaker of a reference range.
    pub fn twice_middle(self) -> u32
        ensures { result ≡ twice_middle self.lowest.cents self.highest.cents }
    {
        self.lowest.cents + self.highest.cents
    }

    /// The collar of a reference range.
    pub fn collar(self) -> PriceRange
        ensures lowest { result.lowest.cents ≡ collar_lowest self.lowest.cents self.highest.cents }
        ensures highest { result.highest.cents ≡ collar_highest self.lowest.cents self.highest.cents }
    {
        let threshold = LEAST_THRESHOLD.max(self.twice_middle() / 20);
        let lowest = Price {
            cents: Price::LOWEST.max(self.lowest.cents.saturating_sub(threshold)),
        };
        let highest = Price {
            cents: Price::HIGHEST.min(self.highest.cents + threshold),
        };
        PriceRange { lowest, highest }
    }

    /// The order with its counted price as its limit.
    pub fn counted(self, order: Order) -> Order
        ensures { result.terms ≡ counted self.lowest.cents self.highest.cents order.terms }
    {
        let cents = match (order.terms.side, order.terms.price) {
            (Side::Buy, OrderPrice::Market) => self.highest.cents,
            (Side::Buy, OrderPrice::Limit(limit)) => limit.min(self.highest.cents),
            (Side::Sell, OrderPrice::Market) => self.lowest.cents,
            (Side::Sell, OrderPrice::Limit(limit)) => limit.max(self.lowest.cents),
        };
        let terms = OrderTerms {
            price: OrderPrice::Limit(cents),
            ..order.terms
        };
        Order { terms }
    }
}
