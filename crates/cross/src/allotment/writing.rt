//! Writing the allotment list in place.

ghost use Rattle.std.specs.Prelude.{◌≡◌, ◌≤◌, ◌++◌, length, take, drop};
ghost use Rattle.cross.specs.Allotments.{allotted, side_allotments, side_count};
ghost use Rattle.cross.specs.Levels.{fill_at};
ghost use Rattle.cross.specs.Queues.{Queue};

use super::Allotment;
use crate::level::Level;
use crate::queue::Queued;
use crate::ranking::Ranking;
use book::{Book, MOST_ORDERS};
use market::order::Side;

/// Queues the orders of a side by rising place, and answers how many.
fn queue_side<B: Book>(book: &B, side: Side, queue: &mut [Queued; MOST_ORDERS]) -> usize
    ensures count { result ≡ side_count side (B.Book.orders book.now) }
    ensures queued { Queue side (B.Book.orders book.now) (length (B.Book.orders book.now)) (take result queue.new) }
{
    // An array: see `allot`. The count is answered: `filter(..).enumerate()` would keep `slot + 1` as well.
    let mut count = 0;
    for (place, order) in book.iter().enumerate() {
        if order.terms.side == side {
            queue[count] = Queued {
                order,
                place,
                slot: count,
            };
            count += 1;
        }
    }
    count
}

/// Writes a record for each order of a side, by rising place, and answers how many; later records stay. The orders are
/// served by the ranking: one sort, and one walk along the queue.
fn serve_side<B: Book, R: Ranking>(
    book: &B,
    level: Level,
    side: Side,
    queue: &mut [Queued; MOST_ORDERS],
    list: &mut [Allotment],
) -> usize
    requires { side_count side (B.Book.orders book.now) ≤ length list.old }
    ensures count { result ≡ side_count side (B.Book.orders book.now) }
    ensures records { list.new ≡ side_allotments side (B.Book.orders book.now) (fill_at level R.Ranking.good (B.Book.orders book.now)) (length (B.Book.orders book.now)) ++ drop result list.old }
{
    let count = queue_side(book, side, queue);
    let queue = &mut queue[..count];
    queue.sort_unstable_by(|a, b| a.standing::<R>(b));
    level.give_out(queue, list);
    count
}

/// Writes the buys first, and right behind them the sells into the rear part of the list.
pub(crate) fn allot<B: Book, R: Ranking>(book: &B, level: Level, list: &mut [Allotment])
    requires { length (B.Book.orders book.now) ≤ length list.old }
    ensures { list.new ≡ allotted (B.Book.orders book.now) (fill_at level R.Ranking.good (B.Book.orders book.now)) list.old }
{
    let Some(first) = book.order(0) else {
        return;
    };
    let blank = Queued {
        order: first,
        place: 0,
        slot: 0,
    };
    // A cross gets no memory, and with an `ArrayVec` one of 20 orders took 16 µs in place of 10: an array.
    let mut queue = [blank; MOST_ORDERS];
    let buys = serve_side::<B, R>(book, level, Side::Buy, &mut queue, list);
    serve_side::<B, R>(book, level, Side::Sell, &mut queue, &mut list[buys..]);
}
