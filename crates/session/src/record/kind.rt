//! The kinds of events.

ghost use Rattle.session.specs.EventKinds.{NamesKind};

use market::refusal::Refusal;

/// What an event asks for, by the number that its record has.
#[derive(Clone, Copy)]
pub(crate) enum EventKind {
    Enter = 1,
    Cancel = 2,
    Quote = 3,
    Publish = 4,
    Lock = 5,
    Shut = 6,
    Cross = 7,
}

impl TryFrom<u32> for EventKind {
    type Error = Refusal;

    ghost try_from_gives = { NamesKind };

    fn try_from(number: u32) -> Result<EventKind, Refusal> {
        match number {
            1 => Ok(EventKind::Enter),
            2 => Ok(EventKind::Cancel),
            3 => Ok(EventKind::Quote),
            4 => Ok(EventKind::Publish),
            5 => Ok(EventKind::Lock),
            6 => Ok(EventKind::Shut),
            7 => Ok(EventKind::Cross),
            _ => Err(Refusal::Value),
        }
    }
}
