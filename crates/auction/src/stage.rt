//! An auction at one of its stages. Only a start makes the first, a stage becomes the next by a call that takes it, and none
//! can be copied. A stage has the calls that its traits give it, and those of its own type.
//!
//! Every call is lent the auction book, by a rule of the project: so each takes the book and a time.

use market::price::Price;
use market::quote::Quote;
use std::marker::PhantomData;

mod changing;
mod crossing;
mod entering;
mod locked_calls;
mod naming;
mod open_calls;
mod publishing;
mod quoting;
mod shut_calls;
mod starting;
mod timing;

pub use naming::{
    AtStage, CrossedStage, LockedStage, OpenStage, Publishes, ShutStage, TakesOrders, TakesQuotes,
};
pub use starting::start;

/// How far an auction has come.
#[derive(Drop)]
struct Progress {
    last_sale: Price,
    /// The time of the last accepted call, 0 at the start by the rule.
    last_time: u32,
    /// The last accepted entry number, 0 at the start by the rule.
    last_entry: u16,
    quote: Quote,
}

/// An auction at a stage.
#[derive(Drop)]
pub struct Auction<S> {
    progress: Progress,
    stage: PhantomData<S>,
}

/// Orders come and go.
pub type Open = Auction<OpenStage>;

/// Orders come within the collar, and none goes.
pub type Locked = Auction<LockedStage>;

/// No order comes or goes.
pub type Shut = Auction<ShutStage>;

/// The auction is over.
pub type Crossed = Auction<CrossedStage>;
