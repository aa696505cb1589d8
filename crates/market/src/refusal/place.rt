ghost use Rattle.std.specs.Prelude.{◌≡◌};
ghost use Rattle.market.specs.Causes.{cause};

use super::Refusal;

impl Refusal {
    /// The number by which the refusal is reported.
    pub fn number(self) -> u8
        ensures { result ≡ (cause self).number }
    {
        match self {
            Refusal::FileSize => 1,
            Refusal::Contents => 2,
            Refusal::FileLength => 3,
            Refusal::BodyLength(_) => 4,
            Refusal::FiledField(_) | Refusal::Value => 5,
            Refusal::TimeBelowLast => 6,
            Refusal::TimeOutside => 7,
            Refusal::EntryNumber => 8,
            Refusal::OutsideCollar => 9,
            Refusal::BookFull => 10,
            Refusal::NoSuchOrder => 11,
            Refusal::AllotmentShort => 12,
            Refusal::NotInStage => 13,
        }
    }

    /// The layer of the file that found the cause, or 0 where no file is meant.
    pub fn layer(self) -> u8
        ensures { result ≡ (cause self).layer }
    {
        match self {
            Refusal::FileSize | Refusal::Contents | Refusal::FileLength => 1,
            Refusal::BodyLength(_) => 2,
            Refusal::FiledField(_) => 3,
            _ => 0,
        }
    }

    /// The byte of the cause, counted from the file's start, or 0 where no file is meant.
    pub fn byte(self) -> u16
        ensures { result ≡ (cause self).byte }
    {
        match self {
            Refusal::FileLength => 1,
            Refusal::BodyLength(byte) | Refusal::FiledField(byte) => byte,
            _ => 0,
        }
    }
}
