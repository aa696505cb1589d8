//! What is asked of an auction.

use crate::order::Order;
use crate::quote::Quote;

/// The last millisecond of a day.
pub const LAST_TIME: u32 = 86_399_999;

/// A call that an event asks for.
#[derive(Clone, Copy, PartialEq, Eq, Debug)]
pub enum Event {
    Enter(Order),
    Cancel { entry: u16, shares: u32 },
    Quote(Quote),
    Publish,
    Lock,
    Shut,
    Cross,
}

/// An event with its time, in milliseconds after midnight.
#[derive(Clone, Copy, PartialEq, Eq, Debug)]
pub struct TimedEvent {
    pub time: u32,
    pub event: Event,
}
