//! A list of timed calls on one auction: `replay` starts it and performs them, and its contract says what the product
//! promises of a run as a whole.

#![tactic(auto)]

pub mod answer;
mod held;
mod performing;
mod running;
pub mod step;
mod stepping;

pub use running::replay;
