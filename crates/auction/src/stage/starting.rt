//! Starting an auction.

ghost use Rattle.std.specs.Prelude.{◌≡◌, not, [], ◌∷◌, MatchResult};
ghost use Rattle.market.specs.Prices.{lawful_price};
ghost use Rattle.auction.specs.Auctions.{open_auction, started};
ghost use Rattle.auction.specs.Refusing.{first_of, refusal, verdict};

use super::{Auction, Open, Progress};
use crate::auction_book::AuctionBook;
use market::price::Price;
use market::quote::Quote;
use market::refusal::Refusal;
use std::marker::PhantomData;

/// Starts an auction from a last sale, in cents, and empties its book. A refused start changes nothing.
pub fn start(book: &mut AuctionBook, last_sale: u32) -> Result<Open, Refusal>
    ensures cause { verdict result ≡ refusal (first_of ((5, not (lawful_price last_sale)) ∷ [])) }
    ensures after { MatchResult result (λ s. open_auction s book.new ≡ started last_sale) (λ _. book.new ≡ book.old) }
{
    let last_sale = Price::new(last_sale)?;
    book.clear();
    let progress = Progress {
        last_sale,
        last_time: 0,
        last_entry: 0,
        quote: Quote::default(),
    };
    Ok(Auction {
        progress,
        stage: PhantomData,
    })
}
