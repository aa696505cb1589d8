//! The events by place.

ghost use Rattle.std.specs.Prelude.{◌≡◌, true, length};
ghost use Rattle.session.specs.declared.field.Values.TheVariants.{CentsOrNone};
ghost use Rattle.market.specs.Ranges.{cents_of};
ghost use Rattle.market.specs.Calls.{timed};
ghost use Rattle.session.specs.Events.{AnswersEvent};
ghost use Rattle.session.specs.Fields.{admits};
ghost use Rattle.session.specs.Records.{entered, event_at, events_in};

use super::{EventRecord, FiledEvents};
use crate::field::{four_at, side_of, two_at};
use crate::record::filed::CleanRecord;
use crate::record::flags::{DISPLAYED, MARKET, SELL, STAYS};
use crate::record::kind::EventKind;
use market::event::{Event, TimedEvent};
use market::order::{Order, OrderPrice, OrderTerms};
use market::price::Price;
use market::quote::Quote;

/// A price of a quote: 0 stands for none.
fn filed_price(cents: u32) -> Option<Price>
    requires { admits CentsOrNone cents ≡ true }
    ensures { cents_of result ≡ cents }
{
    Price::new(cents).ok()
}

/// The terms of an order that is entered.
fn entered_terms(flags: u8, entry: u16, limit: u32, shares: u32) -> OrderTerms
    ensures { result ≡ entered flags entry limit shares }
{
    let price = if flags & MARKET != 0 {
        OrderPrice::Market
    } else {
        OrderPrice::Limit(limit)
    };
    OrderTerms {
        side: side_of(flags & SELL != 0),
        price,
        shares,
        entry,
        displayed: flags & DISPLAYED != 0,
        stays: flags & STAYS != 0,
    }
}

impl<'a> CleanRecord<'a, EventRecord> {
    /// The event that the record says.
    fn event(self) -> TimedEvent
        ensures { timed result ≡ event_at self.entry.bytes.now self.entry.at }
    {
        let bytes = self.bytes;
        let at = self.at;
        let number = two_at(bytes, at + 6);
        let first = four_at(bytes, at + 8);
        let second = four_at(bytes, at + 12);
        // A clean record has a kind, so `Err` never comes; after an `unwrap` a caller that looks at the event takes 1.4 times
        // as long.
        let event = match EventKind::try_from(u32::from(bytes[at + 4])) {
            Ok(EventKind::Enter) => {
                let terms = entered_terms(bytes[at + 5], number, first, second);
                Event::Enter(Order { terms })
            }
            Ok(EventKind::Cancel) => Event::Cancel {
                entry: number,
                shares: second,
            },
            Ok(EventKind::Quote) => Event::Quote(Quote {
                bid: filed_price(first),
                offer: filed_price(second),
            }),
            Ok(EventKind::Publish) => Event::Publish,
            Ok(EventKind::Lock) => Event::Lock,
            Ok(EventKind::Shut) => Event::Shut,
            Ok(EventKind::Cross) | Err(_) => Event::Cross,
        };
        TimedEvent {
            time: four_at(bytes, at),
            event,
        }
    }
}

// As a book's two, by place: one pair for both would put the item, its list and its laws into `Record`, and be longer.
impl<'a> FiledEvents<'a> {
    /// How many events there are.
    #[tactic(auto, using(crate::proofs::FiledRecords::length_events))]
    pub fn count(&self) -> usize
        ensures { result ≡ length (events_in self.now.records.now) }
    {
        self.len()
    }

    /// The event at a place, counted from 0; none at or past the count.
    pub fn event(&self, place: usize) -> Option<TimedEvent>
        ensures { AnswersEvent (events_in self.now.records.now) place result }
    {
        let record = self.get(place)?;
        Some(record.event())
    }
}
