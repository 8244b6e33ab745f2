//! What holds of truth and of sorts in every universe, whatever is said of policies.

ghost use Rattle.std.specs.Prelude.{◌≡◌, ℕ};
ghost use Rattle.sorted_logic.specs.Laws.{IsNeverBoth, LooksAtOccurring, IsIffOfTwo, IsGroupedLeft, IsOfNumbers, SharersOverlap, FieldsHaveBits};
ghost use Rattle.sorted_logic.specs.Signature.{Signature, may_overlap};
/// Something that answers the four questions of a universe.
pub trait Universe {
    ghost use Rattle.sorted_logic.specs.Universe.{Universe as AnyUniverse};

    ghost answers: { AnyUniverse };
}

/// Something that says of policies what they decide, and which of their rules match and apply.
pub trait PolicyAnswers {
    ghost use Rattle.sorted_logic.specs.Truth.{Policies};

    ghost decided: { Policies };
}

/// Nothing is both true and false, where nothing that is said of policies is both.
pub fn never_both<U: Universe, P: PolicyAnswers>()
    ensures { IsNeverBoth U.answers P.decided }
{}

/// Truth looks at the variables that occur alone.
pub fn looks_at_occurring<U: Universe, P: PolicyAnswers>()
    ensures { LooksAtOccurring U.answers P.decided }
{}

/// An IFF of two parts says that they are true together or false together, and a longer one is grouped to the left.
pub fn iff_chains<U: Universe, P: PolicyAnswers>()
    ensures two { IsIffOfTwo U.answers P.decided }
    ensures longer { IsGroupedLeft U.answers P.decided }
{}

/// Whether two sorts may overlap does not depend on their order.
pub fn overlap_is_symmetric()
    ensures { (sig : Signature) (s t : ℕ) → may_overlap sig s t ≡ may_overlap sig t s }
{}

/// Each field's sort in the base signature has the field's bits.
pub fn field_bits()
    ensures { FieldsHaveBits }
{}

/// Sorts that share an element may overlap.
pub fn sharers_overlap<U: Universe>()
    ensures { SharersOverlap U.answers }
{}

/// A formula of number tests and equalities of variables with numbers is true exactly where it is true of the numbers.
pub fn is_of_numbers<U: Universe, P: PolicyAnswers>()
    ensures { IsOfNumbers U.answers P.decided }
{}
