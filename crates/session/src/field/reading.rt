//! Numbers read from bytes, and held to the values of their fields.

ghost use Rattle.std.specs.Prelude.{◌≡◌, ◌+◌, ◌≤◌, cond, length};
ghost use Rattle.market.specs.declared.order.Side.TheVariants.{Buy, Sell};
ghost use Rattle.session.specs.Fields.{admits, first_bad, four, size, span, two, value};

use super::{Field, Values, Width};
use crate::record::flags::{MARKET, STAYS};
use crate::record::kind::EventKind;
use market::event::LAST_TIME;
use market::order::{Side, lawful_shares};
use market::price::Price;
use market::ranking::RankingName;

impl Width {
    fn size(self) -> usize
        ensures { result ≡ size self }
    {
        self as usize
    }
}

// Bytes and place are no plainer as one value: the definitions, and each refusal, name a byte of a body.

/// The number of two bytes at a place.
pub(crate) fn two_at(bytes: &[u8], at: usize) -> u16
    requires { at + 2 ≤ length bytes.now }
    ensures { result ≡ two bytes.now at }
{
    u16::from_be_bytes([bytes[at], bytes[at + 1]])
}

/// The number of four bytes at a place.
pub(crate) fn four_at(bytes: &[u8], at: usize) -> u32
    requires { at + 4 ≤ length bytes.now }
    ensures { result ≡ four bytes.now at }
{
    u32::from_be_bytes([bytes[at], bytes[at + 1], bytes[at + 2], bytes[at + 3]])
}

fn value_at(bytes: &[u8], at: usize, width: Width) -> u32
    requires { at + size width ≤ length bytes.now }
    ensures { result ≡ value width bytes.now at }
{
    match width {
        Width::One => u32::from(bytes[at]),
        Width::Two => u32::from(two_at(bytes, at)),
        Width::Four => four_at(bytes, at),
    }
}

/// The side that a mark names.
pub(crate) fn side_of(sells: bool) -> Side
    ensures { result ≡ cond sells Sell Buy }
{
    if sells { Side::Sell } else { Side::Buy }
}

impl Values {
    fn admit(self, n: u32) -> bool
        ensures { result ≡ admits self n }
    {
        match self {
            Values::Zero => n == 0,
            Values::Mark => n <= 1,
            Values::Ranking => u8::try_from(n).is_ok_and(|n| RankingName::try_from(n).is_ok()),
            Values::EntryNumber => n >= 1,
            Values::Cents => Price::new(n).is_ok(),
            Values::CentsOrNone => n == 0 || Price::new(n).is_ok(),
            Values::Shares => lawful_shares(n),
            Values::TimeOfDay => n <= LAST_TIME,
            Values::EventKind => EventKind::try_from(n).is_ok(),
            Values::EnterFlags => n <= 15
                && !(n & u32::from(MARKET) != 0 && n & u32::from(STAYS) != 0),
        }
    }
}

/// The first byte of the first field that is outside its values, where the fields stand from a byte on.
pub(crate) fn first_bad_field(bytes: &[u8], at: usize, fields: &[Field]) -> Option<usize>
    requires { at + span fields.now ≤ length bytes.now }
    ensures { result ≡ first_bad fields.now bytes.now at }
{
    // A sum of widths, and no count: an iterator's form would be a `scan`, which is no plainer.
    let mut place = at;
    for field in fields {
        if !field.values.admit(value_at(bytes, place, field.width)) {
            return Some(place);
        }
        place += field.width.size();
    }
    None
}
