//! The rankings that a session may name.

ghost use Rattle.std.specs.Prelude.{◌≡◌};
ghost use Rattle.market.specs.RankingNames.{NamesRanking, ranking_number};

use crate::refusal::Refusal;

/// A ranking, as a session names it.
#[derive(Clone, Copy, PartialEq, Eq, Debug)]
pub enum RankingName {
    /// Price, displayed first, lower entry number.
    Display = 1,
    /// Price, more shares, lower entry number.
    Shares = 2,
}

impl RankingName {
    /// The number by which a session names the ranking.
    pub fn number(self) -> u8
        ensures { result ≡ ranking_number self }
    {
        self as u8
    }
}

impl TryFrom<u8> for RankingName {
    type Error = Refusal;

    ghost try_from_gives = { NamesRanking };

    fn try_from(number: u8) -> Result<RankingName, Refusal> {
        match number {
            1 => Ok(RankingName::Display),
            2 => Ok(RankingName::Shares),
            _ => Err(Refusal::Value),
        }
    }
}
