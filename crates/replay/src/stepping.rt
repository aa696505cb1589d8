//! One call of a list.

ghost use Rattle.std.specs.Prelude.{◌≡◌, true, [], ◌∷◌};
ghost use Rattle.market.specs.Calls.{call_of};
ghost use Rattle.market.specs.Causes.{cause};
ghost use Rattle.replay.specs.Performing.{held_auction, performed, reply};
ghost use Rattle.auction.specs.Refusing.{first_of, outside_values, refusal};

use crate::answer::Answer;
use crate::held::Held;
use crate::performing::{
    cancel_shares, cross_shut, enter_order, lock_open, publish_figures, set_quote, shut_locked,
};
use crate::step::Step;
use auction::auction_book::AuctionBook;
use book::Book;
use cross::allotment::Allotment;
use cross::ranking::Ranking;
use market::event::Event;
use market::order::lawful_shares;
use market::refusal::Refusal;

/// Why a call that the stage lacks is refused: for a field outside its values, or else since the stage lacks it.
fn unlawful(event: Event) -> Refusal
    ensures { cause result ≡ refusal (first_of ((5, outside_values (call_of event)) ∷ (13, true) ∷ [])) }
{
    match event {
        Event::Cancel { entry, shares } if entry == 0 || !lawful_shares(shares) => Refusal::Value,
        _ => Refusal::NotInStage,
    }
}

/// Performs a call on the auction that is held, and answers the auction that is then held.
pub(crate) fn perform<F: Book, R: Ranking>(
    held: Held,
    book: &mut AuctionBook,
    step: &Step<F>,
    list: &mut [Allotment],
) -> (Held, Answer)
    ensures { record { next = record { auction = held_auction result.0 book.new; list = list.new }; answer = reply result.1 } ≡ performed R.Ranking.good (record { auction = held_auction held book.old; list = list.old }) (F.Book.orders step.now.filed) step.now.time (call_of step.now.event) }
{
    let time = step.time;
    let filed = &step.filed;
    // The event is looked at where it stands: taken by value, a run of entries took a third more time.
    match (held, &step.event) {
        (Held::Open(auction), Event::Enter(order)) => enter_order(auction, book, time, *order),
        (Held::Open(auction), Event::Cancel { entry, shares }) => {
            cancel_shares(auction, book, time, *entry, *shares)
        }
        (Held::Open(auction), Event::Quote(quote)) => set_quote(auction, book, time, *quote),
        (Held::Open(auction), Event::Lock) => lock_open(auction, book, time),
        (Held::Locked(auction), Event::Enter(order)) => enter_order(auction, book, time, *order),
        (Held::Locked(auction), Event::Quote(quote)) => set_quote(auction, book, time, *quote),
        (Held::Locked(auction), Event::Publish) => publish_figures(auction, book, time, filed),
        (Held::Locked(auction), Event::Shut) => shut_locked(auction, book, time),
        (Held::Shut(auction), Event::Quote(quote)) => set_quote(auction, book, time, *quote),
        (Held::Shut(auction), Event::Publish) => publish_figures(auction, book, time, filed),
        (Held::Shut(auction), Event::Cross) => {
            cross_shut::<F, R>(auction, book, time, filed, list)
        }
        (held, event) => (held, Err(unlawful(*event))),
    }
}
