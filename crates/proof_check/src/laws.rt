ghost use Rattle.proof_check.specs.Refutation.{RefutedHaveNoModel, TrimmedAreAccepted};

/// Clauses with an accepted derivation have no model.
pub fn refuted_clauses_have_no_model()
    ensures { RefutedHaveNoModel }
{}

/// A trimmed derivation is accepted where the whole one is.
pub fn trimmed_derivations_are_accepted()
    ensures { TrimmedAreAccepted }
{}
