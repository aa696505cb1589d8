//! Taking an order in.

ghost use Rattle.std.specs.Prelude.{◌≡◌, MatchResult};
ghost use Rattle.market.specs.Calls.{enter};
ghost use Rattle.auction.specs.Auctions.{auction_of};
ghost use Rattle.auction.specs.Changing.{entered};
ghost use Rattle.auction.specs.Refusing.{beyond, call_cause, refusal, verdict};

use super::{Auction, TakesOrders};
use crate::auction_book::{AuctionBook, MOST_ACCEPTED};
use book::Book;
use market::order::{Order, OrderPrice, Side};
use market::range::PriceRange;
use market::refusal::Refusal;

/// Whether an order lies beyond a collar; a market order always does.
fn is_beyond(collar: PriceRange, order: Order) -> bool
    ensures { result ≡ beyond collar.lowest.cents collar.highest.cents order.terms.side order.terms.price }
{
    match (order.terms.side, order.terms.price) {
        (_, OrderPrice::Market) => true,
        (Side::Buy, OrderPrice::Limit(cents)) => collar.highest.cents < cents,
        (Side::Sell, OrderPrice::Limit(cents)) => cents < collar.lowest.cents,
    }
}

impl<S: TakesOrders> Auction<S> {
    /// Appends an order to the auction book, and answers its shares.
    pub fn enter(&mut self, book: &mut AuctionBook, time: u32, order: Order) -> Result<u32, Refusal>
        ensures cause { verdict result ≡ refusal (call_cause (auction_of S.stage self.old book.old) time (enter order.terms)) }
        ensures after { MatchResult result (λ n. (n ≡ order.terms.shares) × (auction_of S.stage self.new book.new ≡ entered (auction_of S.stage self.old book.old) time order.terms)) (λ _. (self.new ≡ self.old) × (book.new ≡ book.old)) }
    {
        self.progress.check_time(time, 0..S::ENTRY_END)?;
        if order.terms.entry <= self.progress.last_entry {
            return Err(Refusal::EntryNumber);
        }
        if S::IN_COLLAR && is_beyond(self.progress.reference_range().collar(), order) {
            return Err(Refusal::OutsideCollar);
        }
        if book.count() >= MOST_ACCEPTED {
            return Err(Refusal::BookFull);
        }
        book.append(order);
        self.progress.last_time = time;
        self.progress.last_entry = order.terms.entry;
        Ok(order.terms.shares)
    }
}
