//! Moving on to the next stage.

ghost use Rattle.std.specs.Prelude.{◌≡◌, [], ◌∷◌, MatchResult, nat_lt};
ghost use Rattle.auction.specs.Refusing.{first_of, outside, refusal, verdict_back};
ghost use Rattle.auction.specs.Schedule.{day_end};

use super::{Auction, Progress};
use crate::schedule::DAY_END;
use market::refusal::Refusal;
use std::marker::PhantomData;

impl<S> Auction<S> {
    /// At another stage and a later time, otherwise as it was.
    pub(super) fn moved_to<T>(self, time: u32) -> Auction<T>
        ensures { result.progress ≡ record self.progress { last_time = time } }
    {
        let Auction { progress, stage: _ } = self;
        Auction {
            progress: Progress {
                last_time: time,
                ..progress
            },
            stage: PhantomData,
        }
    }

    /// Moves on, from a time of the day on; refused, the auction is handed back as it was.
    pub(super) fn move_on<T>(
        self,
        time: u32,
        from: u32,
    ) -> Result<Auction<T>, (Auction<S>, Refusal)>
        ensures cause { verdict_back result ≡ refusal (first_of ((6, nat_lt time self.progress.last_time) ∷ (7, outside from day_end time) ∷ [])) }
        ensures after { MatchResult result (λ s. s.progress ≡ record self.progress { last_time = time }) (λ e. e.0 ≡ self) }
    {
        match self.progress.check_time(time, from..DAY_END) {
            Ok(()) => Ok(self.moved_to(time)),
            Err(refusal) => Err((self, refusal)),
        }
    }
}
