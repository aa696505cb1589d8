//! The call that only a shut auction has.

ghost use Rattle.std.specs.Prelude.{◌≡◌, length, MatchResult};
ghost use Rattle.market.specs.Calls.{cross};
ghost use Rattle.auction.specs.Auctions.{crossed_auction, shut_auction};
ghost use Rattle.auction.specs.Changing.{crossed};
ghost use Rattle.auction.specs.Outcomes.{list_after, outcome};
ghost use Rattle.auction.specs.Refusing.{first_cause, refusal, verdict_back};

use super::{Crossed, Shut};
use crate::answer::Outcome;
use crate::auction_book::AuctionBook;
use crate::schedule::{CROSS_TIME, DAY_END};
use book::Book;
use cross::allotment::Allotment;
use cross::ranking::Ranking;
use market::refusal::Refusal;

impl Shut {
    /// Crosses the auction book, joined with any book as the filed book, under any ranking: writes the allotment list and
    /// empties the auction book. Refused, the auction is handed back as it was.
    pub fn cross<F: Book, R: Ranking>(
        self,
        book: &mut AuctionBook,
        time: u32,
        filed: &F,
        list: &mut [Allotment],
    ) -> Result<(Crossed, Outcome), (Shut, Refusal)>
        ensures cause { verdict_back result ≡ refusal (first_cause (shut_auction self book.old) (F.Book.orders filed.now) (length list.old) time cross) }
        ensures after { MatchResult result (λ s. (crossed_auction s.0 book.new ≡ crossed (shut_auction self book.old) time) × (s.1 ≡ outcome (shut_auction self book.old) (F.Book.orders filed.now) R.Ranking.good) × (list.new ≡ list_after (shut_auction self book.old) (F.Book.orders filed.now) R.Ranking.good list.old)) (λ e. (e.0 ≡ self) × (book.new ≡ book.old) × (list.new ≡ list.old)) }
    {
        if let Err(refusal) = self.progress.check_time(time, CROSS_TIME..DAY_END) {
            return Err((self, refusal));
        }
        match self.progress.cross_whole::<F, R>(book, filed, list) {
            Ok(outcome) => {
                book.clear();
                Ok((self.moved_to(time), outcome))
            }
            Err(refusal) => Err((self, refusal)),
        }
    }
}
