//! Orders and events as the answers show them.

use market::event::Event;
use market::order::{OrderPrice, OrderTerms, Side};
use std::fmt;

/// A price in cents, or the word for none.
#[derive(Clone, Copy)]
struct CentsOr(Option<u32>, &'static str);

impl fmt::Display for CentsOr {
    fn fmt<W: fmt::Write>(&self, f: &mut fmt::Formatter<W>) -> fmt::Result {
        let CentsOr(cents, word) = *self;
        match cents {
            Some(cents) => write!(f, "{cents}"),
            None => write!(f, "{word}"),
        }
    }
}

/// An order: `SIDE,LIMIT,SHARES,ENTRY,DISPLAYED,STAYS`.
#[derive(Clone, Copy)]
pub(crate) struct ShownTerms(pub(crate) OrderTerms);

impl fmt::Display for ShownTerms {
    fn fmt<W: fmt::Write>(&self, f: &mut fmt::Formatter<W>) -> fmt::Result {
        let terms = self.0;
        let side = match terms.side {
            Side::Buy => "buy",
            Side::Sell => "sell",
        };
        let cents = match terms.price {
            OrderPrice::Market => None,
            OrderPrice::Limit(cents) => Some(cents),
        };
        let limit = CentsOr(cents, "market");
        let (shares, entry) = (terms.shares, terms.entry);
        let (displayed, stays) = (u8::from(terms.displayed), u8::from(terms.stays));
        write!(f, "{side},{limit},{shares},{entry},{displayed},{stays}")
    }
}

/// An event: its kind, and then its values.
#[derive(Clone, Copy)]
pub(crate) struct ShownEvent(pub(crate) Event);

impl fmt::Display for ShownEvent {
    fn fmt<W: fmt::Write>(&self, f: &mut fmt::Formatter<W>) -> fmt::Result {
        match self.0 {
            Event::Enter(order) => write!(f, "enter,{}", ShownTerms(order.terms)),
            Event::Cancel { entry, shares } => write!(f, "cancel,{entry},{shares}"),
            Event::Quote(quote) => {
                let bid = CentsOr(quote.bid.map(|price| price.cents), "none");
                let offer = CentsOr(quote.offer.map(|price| price.cents), "none");
                write!(f, "quote,{bid},{offer}")
            }
            Event::Publish => write!(f, "publish"),
            Event::Lock => write!(f, "lock"),
            Event::Shut => write!(f, "shut"),
            Event::Cross => write!(f, "cross"),
        }
    }
}
