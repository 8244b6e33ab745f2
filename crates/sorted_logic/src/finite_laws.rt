//! What holds of finite universes.

ghost use Rattle.sorted_logic.specs.Laws.{IsDecided, LastIsAnswered};

use crate::laws::PolicyAnswers;

/// Over a finite universe each formula is true or false, where everything that is asked of policies is.
pub fn finite_decides<P: PolicyAnswers>()
    ensures { IsDecided P.decided }
{}

/// What was put last at some elements is the value there, and the values at others stay as they were.
pub fn last_is_answered()
    ensures { LastIsAnswered }
{}
