//! The lines of a report: a word, and then numbers. By functions of numbers and not by `write!`: see `push_decimal`.

ghost use Rattle.reporting.specs.Appending.{Appends};
ghost use Rattle.run_report.specs.Lines.{line, numbers};

use crate::decimal::push_integer;
use std::alloc::AllocError;

/// Appends a comma and the number for each, and then a line feed.
pub(crate) fn push_numbers(text: &mut String, values: &[i64]) -> Result<(), AllocError>
    ensures { Appends result text.old text.new (numbers values.now) }
{
    for value in values {
        text.push(',')?;
        push_integer(text, *value)?;
    }
    text.push('\n')
}

/// Appends the line of a word and numbers.
pub(crate) fn push_line(text: &mut String, word: &str, values: &[i64]) -> Result<(), AllocError>
    ensures { Appends result text.old text.new (line word.now values.now) }
{
    text.push_str(word)?;
    push_numbers(text, values)
}
