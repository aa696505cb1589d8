//! The lines of the fills.

ghost use Rattle.std.specs.List.{flat_map};
ghost use Rattle.report.specs.Text.{fill_line};
ghost use Rattle.reporting.specs.Appending.{Appends};

use cross::allotment::Allotment;
use std::alloc::AllocError;
use std::fmt::Write;

/// Appends a line for each allotment.
pub(crate) fn push_fills(text: &mut String, allotments: &[Allotment]) -> Result<(), AllocError>
    ensures { Appends result text.old text.new (flat_map fill_line allotments.now) }
{
    for Allotment { place, fill } in allotments {
        writeln!(text, "fill,{place},{fill}")?;
    }
    Ok(())
}
