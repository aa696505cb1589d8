//! Orders that come and go while the auction's stage has the call for it.

ghost use Rattle.std.specs.Prelude.{◌≡◌, MatchResult};
ghost use Rattle.market.specs.Calls.{cancel, enter};
ghost use Rattle.auction.specs.Auctions.{locked_auction, open_auction};
ghost use Rattle.auction.specs.Changing.{cancelled, entered, withdrawn};
ghost use Rattle.auction.specs.Refusing.{call_cause, refusal, verdict};

use auction::auction_book::AuctionBook;
use auction::stage::{Locked, Open};
use market::order::Order;
use market::refusal::Refusal;

/// Takes shares off an order of an open auction, and answers those taken.
pub fn withdraw(
    auction: &mut Open,
    book: &mut AuctionBook,
    time: u32,
    entry_number: u16,
    shares: u32,
) -> Result<u32, Refusal>
    ensures cause { verdict result ≡ refusal (call_cause (open_auction auction.old book.old) time (cancel entry_number shares)) }
    ensures after { MatchResult result (λ n. (n ≡ withdrawn (open_auction auction.old book.old) entry_number shares) × (open_auction auction.new book.new ≡ cancelled (open_auction auction.old book.old) time entry_number shares)) (λ _. (auction.new ≡ auction.old) × (book.new ≡ book.old)) }
{
    auction.cancel(book, time, entry_number, shares)
}

/// Enters an order into a locked auction, and answers its shares.
pub fn enter_late(
    auction: &mut Locked,
    book: &mut AuctionBook,
    time: u32,
    order: Order,
) -> Result<u32, Refusal>
    ensures cause { verdict result ≡ refusal (call_cause (locked_auction auction.old book.old) time (enter order.terms)) }
    ensures after { MatchResult result (λ n. (n ≡ order.terms.shares) × (locked_auction auction.new book.new ≡ entered (locked_auction auction.old book.old) time order.terms)) (λ _. (auction.new ≡ auction.old) × (book.new ≡ book.old)) }
{
    auction.enter(book, time, order)
}
