//! Counting by the records of an allotment list.

ghost use Rattle.std.specs.Prelude.{◌≡◌, ℕ, ◌+◌, ◌≤◌, length};
ghost use Rattle.std.specs.List.{AllByRecursion};
ghost use Rattle.auction.specs.Rows.{accepted};
ghost use Rattle.auction.specs.Settling.{Small, WithinShares, counted, settled_by};

use super::Settlement;
use crate::auction_book::AuctionBook;
use book::Book;
use cross::allotment::Allotment;

impl Settlement {
    /// Counts one record more; one of the filed book's does not count.
    fn count(&mut self, book: &AuctionBook, allotment: Allotment)
        requires small { Small 4095 self.old }
        requires within { WithinShares (accepted book.now) allotment }
        ensures counted { self.new ≡ counted (accepted book.now) self.old allotment }
        ensures small { (n : ℕ) → Small n self.old → Small (n + 1) self.new }
    {
        let Some(order) = book.order(allotment.place) else {
            return;
        };
        let left = order.terms.shares - allotment.fill;
        self.filled += allotment.fill;
        if order.terms.stays {
            self.released += left;
        } else {
            self.ended += left;
        }
    }

    /// Of the records of a cross of the whole book: one look at each.
    pub(crate) fn of(book: &AuctionBook, records: &[Allotment]) -> Settlement
        requires few { length records.now ≤ 4096 }
        requires within { AllByRecursion (WithinShares (accepted book.now)) records.now }
        ensures { result ≡ settled_by (accepted book.now) records.now }
    {
        let mut settlement = Settlement::default();
        for allotment in records {
            settlement.count(book, *allotment);
        }
        settlement
    }
}
