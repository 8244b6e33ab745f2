//! What holds of policies in every universe.

ghost use Rattle.combiners.specs.Laws.{IsApplicationRight, IsDecisionRight, IsMatchRight};
ghost use Rattle.combiners.specs.Laws.{IsConsistent, IsUnfolded};

use sorted_logic::Universe;

/// The formulas of policy atoms are true exactly where policies decide and rules match and apply, and
/// false exactly where they do not.
pub fn formula_is_right<U: Universe>()
    ensures decisions { IsDecisionRight U.answers }
    ensures matches { IsMatchRight U.answers }
    ensures applications { IsApplicationRight U.answers }
{}

/// No decision is both made and not made, and no rule both matches and does not, or applies and does
/// not.
pub fn policies_never_contradict<U: Universe>()
    ensures { IsConsistent U.answers }
{}

/// A policy of a lawful set is unfolded all the way down.
pub fn policy_is_unfolded()
    ensures { IsUnfolded }
{}
