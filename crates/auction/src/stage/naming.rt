//! The stages, and what each has.

ghost use Rattle.std.specs.Prelude.{◌≡◌, ℕ, Bool, false, true, refl};
ghost use Rattle.auction.specs.Schedule.{lock_time, shut_time};
ghost use Rattle.auction.specs.Stages.{Stage, entry_end, in_collar, in_crossed, in_locked, in_open, in_shut, publishes, takes_orders, takes_quotes};

use crate::schedule::{LOCK_TIME, SHUT_TIME};

/// A stage of an auction.
pub trait AtStage {
    ghost stage: { Stage };
}

/// A stage in which orders come.
pub trait TakesOrders: AtStage {
    /// Orders come before this time.
    const ENTRY_END: u32;
    /// Whether they have to lie within the collar.
    const IN_COLLAR: bool;

    ghost ENTRY_END: { ℕ };

    ghost IN_COLLAR: { Bool };

    ghost takes: { takes_orders Self.stage ≡ true };

    ghost ends: { ENTRY_END ≡ entry_end Self.stage };

    ghost collared: { IN_COLLAR ≡ in_collar Self.stage };
}

/// A stage in which the quote can be replaced.
pub trait TakesQuotes: AtStage {
    ghost takes: { takes_quotes Self.stage ≡ true };
}

/// A stage whose figures can be published.
pub trait Publishes: AtStage {
    ghost has: { publishes Self.stage ≡ true };
}

// The four are neither `Copy` nor `Clone`, as `Auction` itself: no stage can be copied.
/// The stage of `Open`.
pub struct OpenStage;

/// The stage of `Locked`.
pub struct LockedStage;

/// The stage of `Shut`.
pub struct ShutStage;

/// The stage of `Crossed`.
pub struct CrossedStage;

impl AtStage for OpenStage {
    ghost stage = { in_open };
}

impl AtStage for LockedStage {
    ghost stage = { in_locked };
}

impl AtStage for ShutStage {
    ghost stage = { in_shut };
}

impl AtStage for CrossedStage {
    ghost stage = { in_crossed };
}

impl TakesOrders for OpenStage {
    const ENTRY_END: u32 = LOCK_TIME;

    const IN_COLLAR: bool = false;

    ghost ENTRY_END = { lock_time };

    ghost IN_COLLAR = { false };

    ghost takes = { refl };

    ghost ends = { refl };

    ghost collared = { refl };
}

impl TakesOrders for LockedStage {
    const ENTRY_END: u32 = SHUT_TIME;

    const IN_COLLAR: bool = true;

    ghost ENTRY_END = { shut_time };

    ghost IN_COLLAR = { true };

    ghost takes = { refl };

    ghost ends = { refl };

    ghost collared = { refl };
}

impl TakesQuotes for OpenStage {
    ghost takes = { refl };
}

impl TakesQuotes for LockedStage {
    ghost takes = { refl };
}

impl TakesQuotes for ShutStage {
    ghost takes = { refl };
}

impl Publishes for LockedStage {
    ghost has = { refl };
}

impl Publishes for ShutStage {
    ghost has = { refl };
}
