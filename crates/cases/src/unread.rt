//! Why the bytes of a case are not read.

ghost use Rattle.std.specs.Prelude.{◌≡◌};
ghost use Rattle.cases.specs.declared.unread.Unread.TheVariants.{OutOfMemory};

use std::alloc::AllocFailed;

#[derive(Clone, Copy, PartialEq, Eq, Debug)]
pub enum Unread {
    /// The text is no runs, or they have more bytes than a case may have.
    NotRuns,
    OutOfMemory,
}

impl<T: Drop> From<AllocFailed<T>> for Unread {
    ghost from_gives = { λ _ e. e ≡ OutOfMemory };

    fn from(_error: AllocFailed<T>) -> Unread {
        Unread::OutOfMemory
    }
}
