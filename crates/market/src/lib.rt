//! The vocabulary of the opening auction: prices, orders, price ranges, quotes, calls and refusals.
//!
//! Every bound is an invariant of a type: no price, order or range outside its bounds can exist. What makes one
//! from outside values tests them, and refuses with number 5, layer 0 and byte 0.

#![tactic(auto)]

pub mod event;
pub mod order;
pub mod price;
pub mod quote;
pub mod range;
pub mod ranking;
pub mod refusal;
