//! Worked cases.

ghost use Rattle.std.specs.Prelude.{◌≡◌, true};
ghost use Rattle.cross.specs.Cases.{all_cases};

/// The worked cases of collars, clearing prices and fills hold of the definitions; the checker computes them.
pub fn worked_cases_hold()
    ensures { all_cases ≡ true }
{}
