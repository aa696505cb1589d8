//! Holding an auction of any stage.

ghost use Rattle.std.specs.Prelude.{◌≡◌};
ghost use Rattle.auction.specs.Auctions.{auction_of, locked_auction, open_auction, shut_auction};
ghost use Rattle.auction.specs.declared.auction_book.AuctionBook.{AuctionBook};
ghost use Rattle.replay.specs.Performing.{held_auction};

use super::Held;
use auction::stage::{AtStage, Auction, LockedStage, OpenStage, ShutStage};

/// A stage whose auctions a runner holds.
pub(crate) trait Holds: AtStage {
    fn hold(auction: Auction<Self>) -> Held
        ensures { (b : AuctionBook) → held_auction result b ≡ auction_of Self.stage auction b };
}

impl Holds for OpenStage {
    fn hold(auction: Auction<OpenStage>) -> Held
        ensures { (b : AuctionBook) → held_auction result b ≡ open_auction auction b }
    {
        Held::Open(auction)
    }
}

impl Holds for LockedStage {
    fn hold(auction: Auction<LockedStage>) -> Held
        ensures { (b : AuctionBook) → held_auction result b ≡ locked_auction auction b }
    {
        Held::Locked(auction)
    }
}

impl Holds for ShutStage {
    fn hold(auction: Auction<ShutStage>) -> Held
        ensures { (b : AuctionBook) → held_auction result b ≡ shut_auction auction b }
    {
        Held::Shut(auction)
    }
}
