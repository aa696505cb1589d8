//! The quote, and the range around it.

ghost use Rattle.std.specs.Prelude.{◌≡◌, MatchResult};
ghost use Rattle.market.specs.Calls.{quote};
ghost use Rattle.market.specs.Ranges.{cents_of, reference_highest, reference_lowest};
ghost use Rattle.auction.specs.Auctions.{auction_of};
ghost use Rattle.auction.specs.Changing.{quoted};
ghost use Rattle.auction.specs.Refusing.{call_cause, refusal, verdict};

use super::{Auction, Progress, TakesQuotes};
use crate::auction_book::AuctionBook;
use crate::schedule::DAY_END;
use market::quote::Quote;
use market::range::PriceRange;
use market::refusal::Refusal;

impl Progress {
    pub(super) fn reference_range(&self) -> PriceRange
        ensures lowest { result.lowest.cents ≡ reference_lowest (cents_of self.now.quote.bid) (cents_of self.now.quote.offer) self.now.last_sale.cents }
        ensures highest { result.highest.cents ≡ reference_highest (cents_of self.now.quote.bid) (cents_of self.now.quote.offer) self.now.last_sale.cents }
    {
        self.quote.reference_range(self.last_sale)
    }
}

impl<S: TakesQuotes> Auction<S> {
    /// Replaces the quote.
    pub fn quote(&mut self, book: &AuctionBook, time: u32, new: Quote) -> Result<(), Refusal>
        ensures cause { verdict result ≡ refusal (call_cause (auction_of S.stage self.old book.now) time (quote (cents_of new.bid) (cents_of new.offer))) }
        ensures after { MatchResult result (λ _. auction_of S.stage self.new book.now ≡ quoted (auction_of S.stage self.old book.now) time (cents_of new.bid) (cents_of new.offer)) (λ _. self.new ≡ self.old) }
    {
        self.progress.check_time(time, 0..DAY_END)?;
        self.progress.last_time = time;
        self.progress.quote = new;
        Ok(())
    }
}
