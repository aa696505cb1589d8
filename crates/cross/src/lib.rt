//! The cross of a book: the clearing price in a range, and the shares at a price.

#![tactic(auto)]

pub mod allotment;
pub mod clearing;
pub mod crossing;
pub mod depth;
mod level;
mod limit;
mod queue;
pub mod ranking;
mod serving;
#[cfg(test)]
mod tests;
pub mod worked;
