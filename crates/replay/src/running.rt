//! Running a list of calls.

ghost use Rattle.std.specs.Prelude.{◌≡◌, ◌≤◌, true, map, length, take, drop, MatchResult};
ghost use Rattle.market.specs.Prices.{lawful_price};
ghost use Rattle.auction.specs.Auctions.{open_auction};
ghost use Rattle.replay.specs.Performing.{reply};
ghost use Rattle.replay.specs.Promises.{EveryClearing};
ghost use Rattle.replay.specs.Replaying.{Fails, Ran};
ghost use Rattle.auction.specs.Rows.{accepted};
ghost use Rattle.replay.specs.Runs.{after, answers, asked, first_state};

use crate::answer::Answer;
use crate::held::Held;
use crate::step::{Failure, Step};
use crate::stepping::perform;
use auction::auction_book::AuctionBook;
use auction::stage::{Open, start};
use book::Book;
use cross::allotment::Allotment;
use cross::ranking::Ranking;

/// Performs the calls one after the other, and writes their answers; a refused call does not end the run. The answers go
/// into a lent list: a run gets no memory.
fn run<F: Book, R: Ranking>(
    stage: Open,
    book: &mut AuctionBook,
    steps: &[Step<F>],
    list: &mut [Allotment],
    given: &mut [Answer],
)
    requires { length steps.now ≤ length given.old }
    ensures answered { map reply (take (length steps.now) given.new) ≡ answers R.Ranking.good (record { auction = open_auction stage book.old; list = list.old }) (map (asked F.Book.orders) steps.now) }
    ensures later { drop (length steps.now) given.new ≡ drop (length steps.now) given.old }
    ensures rests { accepted book.new ≡ (after R.Ranking.good (record { auction = open_auction stage book.old; list = list.old }) (map (asked F.Book.orders) steps.now)).auction.orders }
    ensures written { list.new ≡ (after R.Ranking.good (record { auction = open_auction stage book.old; list = list.old }) (map (asked F.Book.orders) steps.now)).list }
{
    let mut held = Held::Open(stage);
    for (place, step) in steps.iter().enumerate() {
        let (next, answer) = perform::<F, R>(held, book, step, list);
        held = next;
        given[place] = answer;
    }
}

// What a run writes is lent piece by piece: the signature that callers have.
/// Starts an auction from a last sale, in cents, on a book that it empties, and performs a list of timed calls on it, the
/// cross under a ranking into the allotment list. Writes the answer to each call; one that the stage lacks is answered by
/// number 13; later answers stay. Where the last sale is no price, or there are more calls than room for answers, nothing
/// is done.
pub fn replay<F: Book, R: Ranking>(
    book: &mut AuctionBook,
    last_sale: u32,
    steps: &[Step<F>],
    list: &mut [Allotment],
    given: &mut [Answer],
) -> Result<(), Failure>
    ensures every { EveryClearing }
    ensures ran { MatchResult result (λ _. (lawful_price last_sale ≡ true) × Ran R.Ranking.good (first_state last_sale list.old) (map (asked F.Book.orders) steps.now) (map reply (take (length steps.now) given.new)) (accepted book.new) list.new × (drop (length steps.now) given.new ≡ drop (length steps.now) given.old)) (λ e. Fails last_sale (length steps.now) (length given.old) e × (book.new ≡ book.old) × (list.new ≡ list.old) × (given.new ≡ given.old)) }
{
    if given.len() < steps.len() {
        return Err(Failure::AnswersShort);
    }
    let auction = start(book, last_sale).map_err(Failure::Refused)?;
    run::<F, R>(auction, book, steps, list, given);
    Ok(())
}
