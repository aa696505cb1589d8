ghost use Rattle.std.specs.Prelude.{Some};
ghost use Rattle.market.specs.Causes.{cause};
ghost use Rattle.market.specs.CauseText.{cause_text};

use super::Refusal;
use std::error::Error;
use std::fmt;

impl fmt::Display for Refusal {
    ghost output = { λ e. Some (cause_text (cause e)) };

    /// As files and lines tell it: `NUMBER,LAYER,BYTE`.
    fn fmt<W: fmt::Write>(&self, f: &mut fmt::Formatter<W>) -> fmt::Result {
        let number = self.number();
        let layer = self.layer();
        let byte = self.byte();
        write!(f, "{number},{layer},{byte}")
    }
}

impl Error for Refusal {}
