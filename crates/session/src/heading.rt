//! The heading of a session.

use market::price::Price;
use market::ranking::RankingName;

/// The share's last sale, and the ranking by which its orders are filled.
#[derive(Clone, Copy)]
pub struct Heading {
    pub last_sale: Price,
    pub ranking: RankingName,
}
