//! The tables of fields.

ghost use Rattle.std.specs.Prelude.{◌≡◌};
ghost use Rattle.session.specs.Records.{event_fields, heading_fields, order_fields};

use super::flags::MARKET;
use super::kind::EventKind;
use crate::field::{Field, Values, Width};

const fn field(width: Width, values: Values) -> Field
    ensures { result ≡ record { width = width; values = values } }
{
    Field { width, values }
}

pub(crate) fn heading_fields() -> [Field; 5]
    ensures { result ≡ heading_fields }
{
    let zero = field(Width::One, Values::Zero);
    [
        field(Width::Four, Values::Cents),
        field(Width::One, Values::Ranking),
        zero,
        zero,
        zero,
    ]
}

pub(crate) fn order_fields() -> [Field; 5]
    ensures { result ≡ order_fields }
{
    [
        field(Width::One, Values::Mark),
        field(Width::One, Values::Mark),
        field(Width::Two, Values::EntryNumber),
        field(Width::Four, Values::Cents),
        field(Width::Four, Values::Shares),
    ]
}

/// An event's fields go by its kind and its flags: what a kind does not name is 0.
pub(crate) fn event_fields(kind: u8, flags: u8) -> [Field; 6]
    ensures { result ≡ event_fields kind flags }
{
    let (flag_values, number, first, second) = match EventKind::try_from(u32::from(kind)) {
        Ok(EventKind::Enter) if flags & MARKET != 0 => (
            Values::EnterFlags,
            Values::EntryNumber,
            Values::Zero,
            Values::Shares,
        ),
        Ok(EventKind::Enter) => (
            Values::EnterFlags,
            Values::EntryNumber,
            Values::Cents,
            Values::Shares,
        ),
        Ok(EventKind::Cancel) => (
            Values::Zero,
            Values::EntryNumber,
            Values::Zero,
            Values::Shares,
        ),
        Ok(EventKind::Quote) => (
            Values::Zero,
            Values::Zero,
            Values::CentsOrNone,
            Values::CentsOrNone,
        ),
        _ => (Values::Zero, Values::Zero, Values::Zero, Values::Zero),
    };
    [
        field(Width::Four, Values::TimeOfDay),
        field(Width::One, Values::EventKind),
        field(Width::One, flag_values),
        field(Width::Two, number),
        field(Width::Four, first),
        field(Width::Four, second),
    ]
}
