//! The opening auction: its book, and its stages as types with their calls.
//!
//! Each call is refused by the first cause that applies, and then changes nothing; or it answers, and leaves stage, book and
//! allotment list, as its definition says.

#![tactic(auto)]

pub mod answer;
pub mod auction_book;
pub mod schedule;
mod settlement;
pub mod stage;
