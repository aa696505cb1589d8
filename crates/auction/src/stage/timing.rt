//! When a call may come.

ghost use Rattle.std.specs.Prelude.{◌≡◌, [], ◌∷◌, nat_lt};
ghost use Rattle.auction.specs.Refusing.{first_of, outside, refusal, verdict};

use super::Progress;
use market::refusal::Refusal;
use std::ops::Range;

impl Progress {
    /// A call comes no earlier than the last accepted one, and within its bounds.
    pub(super) fn check_time(&self, time: u32, bounds: Range<u32>) -> Result<(), Refusal>
        ensures { verdict result ≡ refusal (first_of ((6, nat_lt time self.now.last_time) ∷ (7, outside bounds.start bounds.end time) ∷ [])) }
    {
        if time < self.last_time {
            return Err(Refusal::TimeBelowLast);
        }
        if !bounds.contains(&time) {
            return Err(Refusal::TimeOutside);
        }
        Ok(())
    }
}
