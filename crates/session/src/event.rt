//! The events of a session file, which are those of the market.

pub use market::event::{Event, TimedEvent};
