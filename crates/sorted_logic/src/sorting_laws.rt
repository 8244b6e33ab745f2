//! What holds of the faults of formulas.

ghost use Rattle.sorted_logic.specs.Laws.{IsFaultless};

/// A formula has no fault exactly where it is well-sorted.
pub fn faultless_is_well_sorted()
    ensures { IsFaultless }
{}
