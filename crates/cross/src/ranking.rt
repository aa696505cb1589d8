//! Rankings: which of two orders of a side is served first.

ghost use Rattle.std.specs.Prelude.{◌≡◌, Bool, not, ◌&&◌, ◌||◌};
ghost use Rattle.market.specs.declared.order.OrderTerms.{OrderTerms};
ghost use Rattle.cross.specs.Rankings.{Laws, better_price, by_display, by_shares, same_side};
ghost use Rattle.cross.specs.RankingLaws.{display_laws, shares_laws};

use market::order::{Order, OrderPrice, OrderTerms, Side};
use market::ranking::RankingName;

/// A ranking answers, from two orders alone, whether the first is at least as good as the second.
pub trait Ranking {
    /// The number by which a session names the ranking.
    const NUMBER: u8;

    ghost good: { OrderTerms → OrderTerms → Bool };

    /// Whether order `a` is at least as good as order `b`; not where their sides differ.
    fn as_good(a: Order, b: Order) -> bool
        ensures { result ≡ good a.terms b.terms };

    ghost lawful: { Laws good };
}

/// Whether the first own price is the better one: market is best, then a higher buy limit or a lower sell limit.
fn is_better(side: Side, a: OrderPrice, b: OrderPrice) -> bool
    ensures { result ≡ better_price side a b }
{
    match (a, b) {
        (_, OrderPrice::Market) => false,
        (OrderPrice::Market, _) => true,
        (OrderPrice::Limit(a), OrderPrice::Limit(b)) => match side {
            Side::Buy => b < a,
            Side::Sell => a < b,
        },
    }
}

/// By price, and of the same price by what a second rule says.
fn by_price_then(a: OrderTerms, b: OrderTerms, then: bool) -> bool
    ensures { result ≡ (same_side a.side b.side && (better_price a.side a.price b.price || (not (better_price a.side b.price a.price) && then))) }
{
    a.side == b.side
        && (is_better(a.side, a.price, b.price) || (!is_better(a.side, b.price, a.price) && then))
}

/// Price, displayed first, lower entry number.
pub struct ByDisplay;

impl Ranking for ByDisplay {
    const NUMBER: u8 = RankingName::Display as u8;

    ghost good = { by_display };

    ghost lawful = { display_laws };

    fn as_good(a: Order, b: Order) -> bool {
        let first = (b.terms.displayed, a.terms.entry) <= (a.terms.displayed, b.terms.entry);
        by_price_then(a.terms, b.terms, first)
    }
}

/// Price, more shares, lower entry number.
pub struct ByShares;

impl Ranking for ByShares {
    const NUMBER: u8 = RankingName::Shares as u8;

    ghost good = { by_shares };

    ghost lawful = { shares_laws };

    fn as_good(a: Order, b: Order) -> bool {
        let first = (b.terms.shares, a.terms.entry) <= (a.terms.shares, b.terms.entry);
        by_price_then(a.terms, b.terms, first)
    }
}
