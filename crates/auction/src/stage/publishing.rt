//! The published figures.

ghost use Rattle.std.specs.Prelude.{◌≡◌, MatchResult};
ghost use Rattle.market.specs.Calls.{publish};
ghost use Rattle.auction.specs.Auctions.{auction_at, auction_of};
ghost use Rattle.auction.specs.Changing.{moved};
ghost use Rattle.auction.specs.Publishing.{published};
ghost use Rattle.auction.specs.Refusing.{call_cause, refusal, verdict};
ghost use Rattle.auction.specs.Rows.{accepted};
ghost use Rattle.auction.specs.Stages.{in_shut};

use super::{Auction, Progress, Publishes};
use crate::answer::Figures;
use crate::auction_book::AuctionBook;
use crate::schedule::DAY_END;
use book::Book;
use book::joined::Joined;
use book::lent::Lent;
use cross::clearing::clearing_price;
use cross::depth::Depth;
use market::refusal::Refusal;

impl Progress {
    /// The figures of the auction book, and of the whole book that it makes with a filed book.
    fn figures_of<F: Book>(&self, book: &AuctionBook, filed: &F) -> Figures
        ensures { result ≡ published (auction_at in_shut self.now (accepted book.now)) (F.Book.orders filed.now) }
    {
        let range = self.reference_range();
        let twice = range.twice_middle();
        let collar = range.collar();
        let reference = clearing_price(book, range, twice);
        let depth = Depth::of(book, range, reference);
        let whole = Joined {
            first: Lent { book },
            second: Lent { book: filed },
        };
        Figures {
            reference_price: reference.cents,
            paired_shares: depth.executed(),
            imbalance: depth.imbalance(),
            indicative_price: clearing_price(&whole, collar, twice).cents,
            auction_price: clearing_price(book, collar, twice).cents,
            collar_lowest: collar.lowest.cents,
            collar_highest: collar.highest.cents,
            twice_middle: twice,
        }
    }
}

impl<S: Publishes> Auction<S> {
    /// The published figures, with any book as the filed book.
    pub fn publish<F: Book>(
        &mut self,
        book: &AuctionBook,
        time: u32,
        filed: &F,
    ) -> Result<Figures, Refusal>
        ensures cause { verdict result ≡ refusal (call_cause (auction_of S.stage self.old book.now) time publish) }
        ensures after { MatchResult result (λ f. (f ≡ published (auction_of S.stage self.old book.now) (F.Book.orders filed.now)) × (auction_of S.stage self.new book.now ≡ moved (auction_of S.stage self.old book.now) time S.stage)) (λ _. self.new ≡ self.old) }
    {
        self.progress.check_time(time, 0..DAY_END)?;
        let figures = self.progress.figures_of(book, filed);
        self.progress.last_time = time;
        Ok(figures)
    }
}
