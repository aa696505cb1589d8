//! The call that only a locked auction has.

ghost use Rattle.std.specs.Prelude.{◌≡◌, MatchResult};
ghost use Rattle.market.specs.Calls.{shut};
ghost use Rattle.auction.specs.Auctions.{locked_auction, shut_auction};
ghost use Rattle.auction.specs.Changing.{moved};
ghost use Rattle.auction.specs.Refusing.{call_cause, refusal, verdict_back};
ghost use Rattle.auction.specs.Stages.{in_shut};

use super::{Locked, Shut};
use crate::auction_book::AuctionBook;
use crate::schedule::SHUT_TIME;
use market::refusal::Refusal;

impl Locked {
    /// Shuts the auction; refused, it is handed back as it was.
    pub fn shut(self, book: &AuctionBook, time: u32) -> Result<Shut, (Locked, Refusal)>
        ensures cause { verdict_back result ≡ refusal (call_cause (locked_auction self book.now) time shut) }
        ensures after { MatchResult result (λ s. shut_auction s book.now ≡ moved (locked_auction self book.now) time in_shut) (λ e. e.0 ≡ self) }
    {
        self.move_on(time, SHUT_TIME)
    }
}
