//! The repeat of a cross that was refused.

ghost use Rattle.std.specs.Prelude.{◌≡◌, max, length, MatchResult};
ghost use Rattle.market.specs.Calls.{cross};
ghost use Rattle.auction.specs.Auctions.{crossed_auction, shut_auction};
ghost use Rattle.auction.specs.Changing.{crossed};
ghost use Rattle.auction.specs.Outcomes.{outcome};
ghost use Rattle.auction.specs.Refusing.{first_cause, refusal, verdict_back};
ghost use Rattle.usage.specs.Repeating.{first_after, second_after};

use auction::answer::Outcome;
use auction::auction_book::AuctionBook;
use auction::stage::{Crossed, Shut};
use book::Book;
use cross::allotment::Allotment;
use cross::ranking::Ranking;
use market::refusal::Refusal;

/// Crosses into a list, and where that is refused, as for want of room, crosses the auction that was handed back into
/// another. It is answered as one cross into the longer of both.
pub fn cross_with_more_room<F: Book, R: Ranking>(
    auction: Shut,
    book: &mut AuctionBook,
    time: u32,
    filed: &F,
    list: &mut [Allotment],
    longer: &mut [Allotment],
) -> Result<(Crossed, Outcome), (Shut, Refusal)>
    ensures cause { verdict_back result ≡ refusal (first_cause (shut_auction auction book.old) (F.Book.orders filed.now) (max (length list.old) (length longer.old)) time cross) }
    ensures after { MatchResult result (λ s. (crossed_auction s.0 book.new ≡ crossed (shut_auction auction book.old) time) × (s.1 ≡ outcome (shut_auction auction book.old) (F.Book.orders filed.now) R.Ranking.good) × (list.new ≡ first_after (shut_auction auction book.old) (F.Book.orders filed.now) R.Ranking.good list.old longer.old) × (longer.new ≡ second_after (shut_auction auction book.old) (F.Book.orders filed.now) R.Ranking.good list.old longer.old)) (λ e. (e.0 ≡ auction) × (book.new ≡ book.old) × (list.new ≡ list.old) × (longer.new ≡ longer.old)) }
{
    match auction.cross::<F, R>(book, time, filed, list) {
        Ok(crossed) => Ok(crossed),
        Err((auction, _)) => auction.cross::<F, R>(book, time, filed, longer),
    }
}
