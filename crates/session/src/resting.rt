//! The resting orders of a session file.

use crate::record::filed::FiledRecords;

mod listing;
mod record;

pub use record::OrderRecord;

/// How many orders a resting body may have.
pub const MOST_RESTING: usize = 256;

/// The records of a resting body, each of them an order.
pub type FiledBook<'a> = FiledRecords<'a, OrderRecord>;
