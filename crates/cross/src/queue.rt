//! The queue of a side's orders, in the sequence in which a ranking serves them.

ghost use Rattle.std.specs.Prelude.{◌≡◌, not, ◌&&◌, ◌||◌, nat_lt};
ghost use Rattle.cross.specs.Queues.{standing, stands_before};

use crate::ranking::Ranking;
use market::order::{Order, Side};
use std::cmp::Ordering;

/// An order in a queue, its place in the book, and the number of its own record among those of its side.
#[derive(Clone, Copy)]
pub(crate) struct Queued {
    pub order: Order,
    pub place: usize,
    pub slot: usize,
}

impl Queued {
    /// Whether it is ahead of another: one comparison.
    fn is_ahead<R: Ranking>(&self, other: &Queued) -> bool
        ensures { result ≡ (R.Ranking.good self.now.order.terms other.now.order.terms && (not (R.Ranking.good other.now.order.terms self.now.order.terms) || nat_lt self.now.place other.now.place)) }
    {
        if self.place < other.place {
            return R::as_good(self.order, other.order);
        }
        self.order.terms.side == other.order.terms.side && !R::as_good(other.order, self.order)
    }

    /// A sort compares any two, so a buy stands before a sell.
    fn stands_before<R: Ranking>(&self, other: &Queued) -> bool
        ensures { result ≡ stands_before R.Ranking.good self.now.order.terms self.now.place other.now.order.terms other.now.place }
    {
        match (self.order.terms.side, other.order.terms.side) {
            (Side::Buy, Side::Sell) => true,
            _ => self.is_ahead::<R>(other),
        }
    }

    /// At different places one of the two stands before the other, so one comparison tells.
    pub(crate) fn standing<R: Ranking>(&self, other: &Queued) -> Ordering
        ensures { result ≡ standing R.Ranking.good self.now.order.terms self.now.place other.now.order.terms other.now.place }
    {
        // By hand: a ranking answers one test of two orders, and gives no key to compare.
        if self.stands_before::<R>(other) {
            Ordering::Less
        } else if self.place != other.place || other.stands_before::<R>(self) {
            Ordering::Greater
        } else {
            Ordering::Equal
        }
    }
}
