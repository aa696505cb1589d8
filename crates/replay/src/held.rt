//! The auction that a runner holds, at whatever stage it is.

use auction::stage::{Crossed, Locked, Open, Shut};

mod holding;

pub(crate) use holding::Holds;

/// An auction at one of its stages.
#[derive(Drop)]
pub(crate) enum Held {
    Open(Open),
    Locked(Locked),
    Shut(Shut),
    Crossed(Crossed),
}
