//! The fields of a body: how many bytes each has, and which values it may hold.

mod reading;

pub(crate) use reading::{first_bad_field, four_at, side_of, two_at};

/// How many bytes a number has, the most significant first.
#[derive(Clone, Copy)]
pub(crate) enum Width {
    One = 1,
    Two = 2,
    Four = 4,
}

/// The values that a field may hold.
#[derive(Clone, Copy)]
pub(crate) enum Values {
    /// 0 alone.
    Zero,
    /// 0 or 1.
    Mark,
    /// 1 or 2.
    Ranking,
    /// 1 and up.
    EntryNumber,
    /// A price in cents.
    Cents,
    /// 0, for none, or a price in cents.
    CentsOrNone,
    /// The shares of an order.
    Shares,
    /// Milliseconds after midnight, up to the last of the day.
    TimeOfDay,
    /// 1 to 7.
    EventKind,
    /// A sum of 1, 2, 4 and 8 that has not both 2 and 4.
    EnterFlags,
}

/// A number of a record: its width, and the values that it may hold.
#[derive(Clone, Copy)]
pub(crate) struct Field {
    pub(crate) width: Width,
    pub(crate) values: Values,
}
