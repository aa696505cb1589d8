//! The steps of a list of timed calls.

use market::event::Event;
use market::refusal::Refusal;

/// A call at a time, with the book that then stands as the filed book.
#[derive(Drop)]
pub struct Step<F> {
    pub time: u32,
    pub event: Event,
    pub filed: F,
}

/// Why no auction was run.
#[derive(Clone, Copy)]
pub enum Failure {
    /// The last sale is no price.
    Refused(Refusal),
    /// The list for the answers is shorter than that of the calls.
    AnswersShort,
}
