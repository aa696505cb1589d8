//! The steps over the events.

ghost use Rattle.std.specs.Prelude.{◌≡◌, Some, length, IfSome};
ghost use Rattle.std.specs.Iterator.{UpTo, YieldsFirstBy, item_count};
ghost use Rattle.std.specs.Iterator.SizeHint.{IsWithinCount};
ghost use Rattle.market.specs.Calls.{timed};
ghost use Rattle.session.specs.Going.{ahead};
ghost use Rattle.session.specs.Records.{events_in};

use super::Events;
use crate::events::FiledEvents;
use market::event::TimedEvent;

impl<'a> Iterator for Events<'a> {
    type Item = TimedEvent;

    ghost next_gives = { YieldsFirstBy timed ahead };

    ghost remaining = { item_count ahead };

    fn next(&mut self) -> Option<TimedEvent> {
        let place = self.places.next()?;
        self.filed.event(place)
    }

    // So that a list of them is got whole, and does not grow step by step.
    fn size_hint(&self) -> (usize, Option<usize>)
        ensures lower { IsWithinCount result.0 (item_count ahead self.now) }
        ensures upper { IfSome result.1 (UpTo (item_count ahead self.now)) }
        ensures exact { result ≡ (length (ahead self.now), Some (length (ahead self.now))) }
    {
        let left = self.places.len();
        (left, Some(left))
    }
}

impl<'a> FiledEvents<'a> {
    /// The events, by rising place: one look at each.
    pub fn iter(&self) -> Events<'a>
        ensures { ahead result ≡ events_in self.now.records.now }
    {
        Events {
            filed: *self,
            places: 0..self.count(),
        }
    }
}
