//! Numbers as text.

ghost use Rattle.reporting.specs.Appending.{Appends};
ghost use Rattle.run_report.specs.Decimals.{DecimalRule, decimal, integer};

use std::alloc::AllocError;

/// Appends a decimal number: its leading digits by the same rule, and then its last digit.
// A rule of the project: a run's numbers are written as `DecimalRule` reads, and no `{}` of the library is used for them.
pub(crate) fn push_decimal(text: &mut String, n: u64) -> Result<(), AllocError>
    ensures appended { Appends result text.old text.new (decimal n) }
    ensures rule { DecimalRule }
{
    if n >= 10 {
        push_decimal(text, n / 10)?;
    }
    text.push(char::from(b'0' + (n % 10) as u8))
}

/// Appends a number, with a minus first where it is negative.
// By the same rule of the project.
pub(crate) fn push_integer(text: &mut String, n: i64) -> Result<(), AllocError>
    ensures { Appends result text.old text.new (integer n) }
{
    if n < 0 {
        text.push('-')?;
    }
    // The magnitude of the least i64 is no i64.
    push_decimal(text, n.unsigned_abs())
}
