//! What the resting orders of a session would do by themselves, in the collar of the last sale.

ghost use Rattle.std.specs.Prelude.{MatchResult};
ghost use Rattle.market.specs.RankingNames.{ranking_number};
ghost use Rattle.cross.specs.Crossing.{Crossed, TooShort};
ghost use Rattle.report.specs.Text.{ranking_of};

use book::Book;
use cross::allotment::Allotment;
use cross::crossing::{Crossing, cross};
use cross::ranking::{ByDisplay, ByShares, Ranking};
use market::range::PriceRange;
use market::ranking::RankingName;
use market::refusal::Refusal;

/// Crosses a book by the ranking that a heading names.
pub(crate) fn cross_by<B: Book>(
    ranking: RankingName,
    book: &B,
    range: PriceRange,
    twice: u32,
    list: &mut [Allotment],
) -> Result<Crossing, Refusal>
    ensures { MatchResult result (Crossed range.lowest.cents range.highest.cents (ranking_of (ranking_number ranking)) (B.Book.orders book.now) twice list.old list.new) (TooShort (B.Book.orders book.now) list.old list.new) }
{
    // A rule of the project: a ranking carries its number, and is chosen by it, which a `match` on the name would leave aside.
    // Each report chooses by itself: what is chosen is a type, and no closure is generic over one.
    if ranking.number() == ByDisplay::NUMBER {
        cross::<B, ByDisplay>(book, range, twice, list)
    } else {
        cross::<B, ByShares>(book, range, twice, list)
    }
}
