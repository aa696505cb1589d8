//! The cross of the whole book.

ghost use Rattle.std.specs.Prelude.{◌≡◌, ◌≤◌, length, if◌then◌else◌, MatchResult, nat_eq};
ghost use Rattle.cross.specs.Crossing.{TooShort};
ghost use Rattle.auction.specs.Auctions.{auction_at, whole};
ghost use Rattle.auction.specs.Outcomes.{list_after, outcome};
ghost use Rattle.auction.specs.Rows.{accepted};
ghost use Rattle.auction.specs.Stages.{in_shut};

use super::Progress;
use crate::answer::Outcome;
use crate::auction_book::AuctionBook;
use crate::settlement::Settlement;
use book::Book;
use book::joined::Joined;
use book::lent::Lent;
use cross::allotment::Allotment;
use cross::crossing::{Crossing, cross as cross_book};
use cross::ranking::Ranking;
use market::refusal::Refusal;

/// What a cross answers.
fn answered(crossing: Crossing, settlement: Settlement, records: usize) -> Outcome
    ensures { result ≡ record { price = (if nat_eq crossing.executed 0 then 0 else crossing.price.cents); executed = crossing.executed; filled = settlement.filled; ended = settlement.ended; released = settlement.released; records = records } }
{
    let price = if crossing.executed == 0 {
        0
    } else {
        crossing.price.cents
    };
    Outcome {
        price,
        executed: crossing.executed,
        filled: settlement.filled,
        ended: settlement.ended,
        released: settlement.released,
        records,
    }
}

impl Progress {
    /// Crosses the whole book in the collar, and settles the auction book by what was written.
    pub(super) fn cross_whole<F: Book, R: Ranking>(
        &self,
        book: &AuctionBook,
        filed: &F,
        list: &mut [Allotment],
    ) -> Result<Outcome, Refusal>
        ensures { MatchResult result (λ o. (o ≡ outcome (auction_at in_shut self.now (accepted book.now)) (F.Book.orders filed.now) R.Ranking.good) × (list.new ≡ list_after (auction_at in_shut self.now (accepted book.now)) (F.Book.orders filed.now) R.Ranking.good list.old) × (length (whole (auction_at in_shut self.now (accepted book.now)) (F.Book.orders filed.now)) ≤ length list.old)) (TooShort (whole (auction_at in_shut self.now (accepted book.now)) (F.Book.orders filed.now)) list.old list.new) }
    {
        let range = self.reference_range();
        let whole = Joined {
            first: Lent { book },
            second: Lent { book: filed },
        };
        let twice = range.twice_middle();
        let crossing = cross_book::<Joined<Lent<'_, AuctionBook>, Lent<'_, F>>, R>(
            &whole,
            range.collar(),
            twice,
            list,
        )?;
        let records = whole.count();
        let settlement = Settlement::of(book, &list[..records]);
        Ok(answered(crossing, settlement, records))
    }
}
