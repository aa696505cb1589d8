//! The cross of any book under any ranking.

ghost use Rattle.std.specs.Prelude.{MatchResult};
ghost use Rattle.cross.specs.Crossing.{Crossed, TooShort};

use super::Crossing;
use crate::allotment::Allotment;
use crate::allotment::writing::allot;
use crate::clearing::clearing_price;
use crate::depth::Depth;
use crate::level::Level;
use crate::ranking::Ranking;
use book::Book;
use market::range::PriceRange;
use market::refusal::Refusal;

/// Crosses a book in a range: writes the fill of each order into the allotment list, the buys first by rising place
/// and right behind them the sells, and answers the price and the shares executed. `twice` is twice the tie-breaker.
/// A list shorter than the book is refused, and stays as it was.
pub fn cross<B: Book, R: Ranking>(
    book: &B,
    range: PriceRange,
    twice: u32,
    list: &mut [Allotment],
) -> Result<Crossing, Refusal>
    ensures { MatchResult result (Crossed range.lowest.cents range.highest.cents R.Ranking.good (B.Book.orders book.now) twice list.old list.new) (TooShort (B.Book.orders book.now) list.old list.new) }
{
    if list.len() < book.count() {
        return Err(Refusal::AllotmentShort);
    }
    let price = clearing_price(book, range, twice);
    let executed = Depth::of(book, range, price).executed();
    let level = Level {
        range,
        price,
        executed,
    };
    allot::<B, R>(book, level, list);
    Ok(Crossing { price, executed })
}
