//! How the calls of a list are answered.

use auction::answer::{Figures, Outcome};
use market::refusal::Refusal;

/// What an accepted call did.
#[derive(Clone, Copy)]
pub enum Effect {
    /// The shares entered.
    Entered(u32),
    /// The shares taken off an order.
    Cancelled(u32),
    Quoted,
    Published(Figures),
    /// The auction is locked, or shut.
    Moved,
    Crossed(Outcome),
}

/// How a call was answered; refused, it has changed nothing.
pub type Answer = Result<Effect, Refusal>;
