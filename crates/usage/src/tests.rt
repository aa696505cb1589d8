//! Calls whose outcome no session file can show.

use auction::answer::Outcome;
use auction::auction_book::AuctionBook;
use auction::stage::{Locked, Open, Shut, start};
use book::Book;
use cross::allotment::Allotment;
use cross::ranking::ByDisplay;
use market::order::{Order, OrderPrice, OrderTerms, Side};
use std::process::Abort;
use std::test::Fail;

fn order(side: Side, cents: u32, shares: u32, entry: u16) -> Result<Order, Fail> {
    let terms = OrderTerms {
        side,
        price: OrderPrice::Limit(cents),
        shares,
        entry,
        displayed: true,
        stays: true,
    };
    Ok(Order::new(terms)?)
}

/// An auction with a buy of 300 and a sell of 200, both at the last sale.
fn open_auction(rt: &impl Abort, book: &mut AuctionBook) -> Result<Open, Fail> {
    let mut auction = start(book, 1000)?;
    assert!(rt;
        auction
            .enter(book, 1, order(Side::Buy, 1000, 300, 1)?)
            .is_ok()
    );
    assert!(rt;
        auction
            .enter(book, 1, order(Side::Sell, 1000, 200, 2)?)
            .is_ok()
    );
    Ok(auction)
}

fn locked_auction(rt: &impl Abort, book: &mut AuctionBook) -> Result<Locked, Fail> {
    open_auction(rt, book)?
        .lock(book, 34_080_000)
        .map_err(|_| Fail::new("locked"))
}

fn shut_auction(rt: &impl Abort, book: &mut AuctionBook) -> Result<Shut, Fail> {
    locked_auction(rt, book)?
        .shut(book, 34_190_000)
        .map_err(|_| Fail::new("shut"))
}

/// What a cross of a shut auction does, with a filed book that has no orders.
fn crossed(
    rt: &impl Abort,
    auction: Shut,
    book: &mut AuctionBook,
    none: &AuctionBook,
) -> Result<Outcome, Fail> {
    let mut list = [Allotment { place: 9, fill: 9 }; 3];
    let (_, outcome) = auction
        .cross::<AuctionBook, ByDisplay>(book, 34_200_000, none, &mut list)
        .map_err(|_| Fail::new("crossed"))?;
    assert!(rt; list[0].place == 0 && list[0].fill == 200);
    assert!(rt; list[1].place == 1 && list[1].fill == 200);
    assert!(rt; list[2].place == 9 && list[2].fill == 9);
    Ok(outcome)
}

#[test]
fn a_cross_for_want_of_room_is_repeated(rt: HostRuntime) -> Result<(), Fail> {
    let mut book = AuctionBook::new(rt.alloc())?;
    let none = AuctionBook::new(rt.alloc())?;
    let auction = shut_auction(&rt, &mut book)?;
    let mut short = [Allotment { place: 7, fill: 7 }; 1];
    let auction = match auction.cross::<AuctionBook, ByDisplay>(
        &mut book, 34_200_000, &none, &mut short,
    ) {
        Ok(_) => return Err(Fail::new("a list too short was taken")),
        Err((auction, refusal)) => {
            assert_eq!(rt; refusal.number(), 12);
            auction
        }
    };
    assert!(rt; short[0].place == 7 && short[0].fill == 7);
    assert_eq!(rt; book.count(), 2);
    let outcome = crossed(&rt, auction, &mut book, &none)?;
    assert_eq!(rt; book.count(), 0);
    assert_eq!(rt; outcome.price, 1000);
    assert_eq!(rt; outcome.executed, 200);
    assert_eq!(rt; outcome.filled, 400);
    assert_eq!(rt; outcome.ended, 0);
    assert_eq!(rt; outcome.released, 100);
    assert_eq!(rt; outcome.records, 2);
    Ok(())
}

#[test]
fn the_book_is_full_at_256(rt: HostRuntime) -> Result<(), Fail> {
    let mut book = AuctionBook::new(rt.alloc())?;
    let mut auction = start(&mut book, 1000)?;
    for entry in 1..257u16 {
        assert!(rt;
            auction
                .enter(&mut book, 5, order(Side::Buy, 1000, 1, entry)?)
                .is_ok()
        );
    }
    assert_eq!(rt; book.count(), 256);
    match auction.enter(&mut book, 5, order(Side::Buy, 1000, 1, 300)?) {
        Ok(_) => Err(Fail::new("a full book took an order")),
        Err(refusal) => {
            assert_eq!(rt; refusal.number(), 10);
            Ok(())
        },
    }
}

#[test]
fn any_book_stands_as_the_filed_book(rt: HostRuntime) -> Result<(), Fail> {
    let mut book = AuctionBook::new(rt.alloc())?;
    let mut other = AuctionBook::new(rt.alloc())?;
    let none = AuctionBook::new(rt.alloc())?;
    let mut second = open_auction(&rt, &mut other)?;
    assert!(rt;
        second
            .enter(&mut other, 1, order(Side::Buy, 1040, 500, 3)?)
            .is_ok()
    );
    let mut auction = locked_auction(&rt, &mut book)?;
    let alone = auction.publish(&book, 34_080_001, &none)?;
    let joined = auction.publish(&book, 34_080_001, &other)?;
    assert_eq!(rt; alone.paired_shares, 200);
    assert_eq!(rt; joined.paired_shares, 200);
    assert_eq!(rt; alone.indicative_price, 1000);
    assert_eq!(rt; joined.indicative_price, 1040);
    assert_eq!(rt; joined.auction_price, 1000);
    Ok(())
}

#[test]
fn values_that_may_not_be_are_refused(rt: HostRuntime) -> Result<(), Fail> {
    let mut book = AuctionBook::new(rt.alloc())?;
    let mut auction = open_auction(&rt, &mut book)?;
    for (entry, shares) in [(0, 1), (1, 0), (1, 1_000_001)] {
        match auction.cancel(&mut book, 2, entry, shares) {
            Ok(_) => return Err(Fail::new("a cancel of such a number or so many shares")),
            Err(refusal) => assert!(rt;
                refusal.number() == 5 && refusal.layer() == 0 && refusal.byte() == 0
            ),
        }
    }
    match start(&mut book, 0) {
        Ok(_) => return Err(Fail::new("a start from no price")),
        Err(refusal) => assert_eq!(rt; refusal.number(), 5),
    }
    assert_eq!(rt; book.count(), 2);
    Ok(())
}
