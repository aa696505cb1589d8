//! The list of a cross, record by record.

ghost use Rattle.std.specs.Prelude.{◌≤◌, length, map};

use crate::allotment::Allotment;
use crate::crossing::cross;
use crate::ranking::{ByDisplay, ByShares, Ranking};
use book::Book;
use market::order::{Order, OrderPrice, OrderTerms, Side};
use market::price::Price;
use market::range::PriceRange;
use std::process::Abort;
use std::test::Fail;

#[derive(Drop)]
struct Listed<'a> {
    orders: &'a [Order],
    ghost short: { length (map (λ o. o.terms) orders.now) ≤ 4096 },
}

impl<'a> Book for Listed<'a> {
    ghost orders = { λ b. map (λ o. o.terms) b.orders.now };

    ghost short = { λ b. b.short };

    fn count(&self) -> usize {
        self.orders.len()
    }

    fn order(&self, place: usize) -> Option<Order> {
        self.orders.get(place).copied()
    }
}

fn order(side: Side, cents: u32, shares: u32, entry: u16, displayed: bool) -> Result<Order, Fail> {
    Ok(Order::new(OrderTerms {
        side,
        price: OrderPrice::Limit(cents),
        shares,
        entry,
        displayed,
        stays: true,
    })?)
}

/// Crosses eight orders, two of them alike, between two prices: the list has the buys, then the sells, with these fills,
/// and the ninth record stays.
fn crosses<R: Ranking>(rt: &impl Abort, low: u32, high: u32, fills: [u32; 9]) -> Result<(), Fail> {
    let orders = [
        order(Side::Buy, 1030, 5, 7, true)?,
        order(Side::Sell, 1000, 4, 3, true)?,
        order(Side::Buy, 1020, 5, 9, true)?,
        order(Side::Sell, 1020, 5, 4, false)?,
        order(Side::Buy, 1020, 6, 2, false)?,
        order(Side::Buy, 1020, 5, 6, true)?,
        order(Side::Sell, 1020, 3, 8, true)?,
        order(Side::Buy, 1020, 5, 6, true)?,
    ];
    let book = Listed { orders: &orders };
    let range = PriceRange::new(Price::new(low)?, Price::new(high)?)?;
    let mut list = [Allotment { place: 9, fill: 9 }; 9];
    cross::<_, R>(&book, range, range.twice_middle(), &mut list)?;
    let places = [0, 2, 4, 5, 7, 1, 3, 6, 9];
    assert_eq!(rt; list.map(|record| record.place), places);
    assert_eq!(rt; list.map(|record| record.fill), fills);
    Ok(())
}

#[test]
fn a_cross_writes_the_fills(rt: HostRuntime) -> Result<(), Fail> {
    crosses::<ByDisplay>(&rt, 1000, 1020, [5, 0, 0, 5, 2, 4, 5, 3, 9])?;
    crosses::<ByDisplay>(&rt, 1030, 1040, [5, 0, 0, 0, 0, 4, 0, 1, 9])?;
    crosses::<ByShares>(&rt, 1000, 1020, [5, 0, 6, 1, 0, 4, 5, 3, 9])?;
    crosses::<ByShares>(&rt, 1030, 1040, [5, 0, 0, 0, 0, 4, 1, 0, 9])
}
