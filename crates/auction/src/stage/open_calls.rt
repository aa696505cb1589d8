//! The calls that only an open auction has: in it orders also go.

ghost use Rattle.std.specs.Prelude.{◌≡◌, MatchResult};
ghost use Rattle.market.specs.Calls.{cancel, lock};
ghost use Rattle.auction.specs.Auctions.{locked_auction, open_auction};
ghost use Rattle.auction.specs.Changing.{cancelled, moved, withdrawn};
ghost use Rattle.auction.specs.Refusing.{call_cause, refusal, verdict, verdict_back};
ghost use Rattle.auction.specs.Stages.{in_locked};

use super::{Locked, Open};
use crate::auction_book::AuctionBook;
use crate::schedule::LOCK_TIME;
use market::order::lawful_shares;
use market::refusal::Refusal;

impl Open {
    /// Takes up to the asked shares off the order of an entry number, and answers those taken. If none are left the order
    /// goes and the later ones move up one place; otherwise it is cut in its place.
    pub fn cancel(
        &mut self,
        book: &mut AuctionBook,
        time: u32,
        entry_number: u16,
        shares: u32,
    ) -> Result<u32, Refusal>
        ensures cause { verdict result ≡ refusal (call_cause (open_auction self.old book.old) time (cancel entry_number shares)) }
        ensures after { MatchResult result (λ n. (n ≡ withdrawn (open_auction self.old book.old) entry_number shares) × (open_auction self.new book.new ≡ cancelled (open_auction self.old book.old) time entry_number shares)) (λ _. (self.new ≡ self.old) × (book.new ≡ book.old)) }
    {
        if entry_number == 0 || !lawful_shares(shares) {
            return Err(Refusal::Value);
        }
        self.progress.check_time(time, 0..LOCK_TIME)?;
        let place = book.find(entry_number).ok_or(Refusal::NoSuchOrder)?;
        let taken = book.withdraw(place, shares);
        self.progress.last_time = time;
        Ok(taken)
    }

    /// Locks the auction; refused, it is handed back as it was.
    pub fn lock(self, book: &AuctionBook, time: u32) -> Result<Locked, (Open, Refusal)>
        ensures cause { verdict_back result ≡ refusal (call_cause (open_auction self book.now) time lock) }
        ensures after { MatchResult result (λ s. locked_auction s book.now ≡ moved (open_auction self book.now) time in_locked) (λ e. e.0 ≡ self) }
    {
        self.move_on(time, LOCK_TIME)
    }
}
