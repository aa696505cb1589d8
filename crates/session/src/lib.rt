//! The session file: a share's last sale, its resting orders and the events of its opening auction, as bytes.
//!
//! `read` accepts exactly the files that keep the layout, and hands out what they hold without copying it; any
//! other file is refused by one number, with the layer and the byte of the cause.

#![tactic(auto)]

pub mod body;
pub mod event;
pub mod events;
mod field;
pub mod file;
pub mod heading;
mod record;
pub mod resting;
