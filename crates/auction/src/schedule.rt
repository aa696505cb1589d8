//! The times of the opening auction, in milliseconds after midnight.

use market::event::LAST_TIME;

/// From here on the auction can be locked; before it orders come and go.
pub const LOCK_TIME: u32 = 34_080_000;

/// From here on the locked auction can be shut; before it orders come.
pub const SHUT_TIME: u32 = 34_190_000;

/// From here on the shut auction can be crossed.
pub const CROSS_TIME: u32 = 34_200_000;

/// The end of the day.
pub(crate) const DAY_END: u32 = LAST_TIME + 1;
