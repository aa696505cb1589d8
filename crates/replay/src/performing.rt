//! The calls on an auction, each with its answer.

ghost use Rattle.std.specs.Prelude.{◌≡◌, MatchResult};
ghost use Rattle.market.specs.Calls.{cancel, cross, enter, lock, publish, quote, shut};
ghost use Rattle.market.specs.Causes.{cause};
ghost use Rattle.market.specs.Ranges.{cents_of};
ghost use Rattle.auction.specs.Auctions.{auction_of, locked_auction, open_auction, shut_auction};
ghost use Rattle.auction.specs.declared.auction_book.AuctionBook.{AuctionBook};
ghost use Rattle.replay.specs.Performing.{Does, DoesWith, held_auction, moves, performed, refuses, reply};

use crate::answer::{Answer, Effect};
use crate::held::{Held, Holds};
use auction::auction_book::AuctionBook;
use auction::stage::{Auction, Locked, Open, Publishes, Shut, TakesOrders, TakesQuotes};
use book::Book;
use cross::allotment::Allotment;
use cross::ranking::Ranking;
use market::order::Order;
use market::quote::Quote;
use market::refusal::Refusal;

pub(crate) fn enter_order<S: TakesOrders + Holds>(
    mut auction: Auction<S>,
    book: &mut AuctionBook,
    time: u32,
    order: Order,
) -> (Held, Answer)
    ensures { Does (auction_of S.stage auction book.old) time (enter order.terms) (held_auction result.0 book.new) (reply result.1) }
{
    let answer = auction.enter(book, time, order).map(Effect::Entered);
    (S::hold(auction), answer)
}

pub(crate) fn cancel_shares(
    mut auction: Open,
    book: &mut AuctionBook,
    time: u32,
    entry_number: u16,
    shares: u32,
) -> (Held, Answer)
    ensures { Does (open_auction auction book.old) time (cancel entry_number shares) (held_auction result.0 book.new) (reply result.1) }
{
    let answer = auction.cancel(book, time, entry_number, shares);
    (Held::Open(auction), answer.map(Effect::Cancelled))
}

pub(crate) fn set_quote<S: TakesQuotes + Holds>(
    mut auction: Auction<S>,
    book: &AuctionBook,
    time: u32,
    new: Quote,
) -> (Held, Answer)
    ensures { Does (auction_of S.stage auction book.now) time (quote (cents_of new.bid) (cents_of new.offer)) (held_auction result.0 book.now) (reply result.1) }
{
    let answer = auction.quote(book, time, new).map(|()| Effect::Quoted);
    (S::hold(auction), answer)
}

pub(crate) fn publish_figures<S: Publishes + Holds, F: Book>(
    mut auction: Auction<S>,
    book: &AuctionBook,
    time: u32,
    filed: &F,
) -> (Held, Answer)
    ensures { DoesWith (F.Book.orders filed.now) (auction_of S.stage auction book.now) time publish (held_auction result.0 book.now) (reply result.1) }
{
    let answer = auction.publish(book, time, filed).map(Effect::Published);
    (S::hold(auction), answer)
}

/// What a change of stage leaves.
fn moved<S: Holds, T: Holds>(done: Result<Auction<T>, (Auction<S>, Refusal)>) -> (Held, Answer)
    ensures { MatchResult done (λ s. (reply result.1 ≡ moves) × ((b : AuctionBook) → held_auction result.0 b ≡ auction_of T.stage s b)) (λ e. (reply result.1 ≡ refuses (cause e.1)) × ((b : AuctionBook) → held_auction result.0 b ≡ auction_of S.stage e.0 b)) }
{
    match done {
        Ok(next) => (T::hold(next), Ok(Effect::Moved)),
        Err((auction, refusal)) => (S::hold(auction), Err(refusal)),
    }
}

pub(crate) fn lock_open(auction: Open, book: &AuctionBook, time: u32) -> (Held, Answer)
    ensures { Does (open_auction auction book.now) time lock (held_auction result.0 book.now) (reply result.1) }
{
    moved(auction.lock(book, time))
}

pub(crate) fn shut_locked(auction: Locked, book: &AuctionBook, time: u32) -> (Held, Answer)
    ensures { Does (locked_auction auction book.now) time shut (held_auction result.0 book.now) (reply result.1) }
{
    moved(auction.shut(book, time))
}

pub(crate) fn cross_shut<F: Book, R: Ranking>(
    auction: Shut,
    book: &mut AuctionBook,
    time: u32,
    filed: &F,
    list: &mut [Allotment],
) -> (Held, Answer)
    ensures { record { next = record { auction = held_auction result.0 book.new; list = list.new }; answer = reply result.1 } ≡ performed R.Ranking.good (record { auction = shut_auction auction book.old; list = list.old }) (F.Book.orders filed.now) time cross }
{
    // Tried as `moved`, of a result with the effect in it: the proof did not close.
    match auction.cross::<F, R>(book, time, filed, list) {
        Ok((crossed, outcome)) => (Held::Crossed(crossed), Ok(Effect::Crossed(outcome))),
        Err((auction, refusal)) => (Held::Shut(auction), Err(refusal)),
    }
}
