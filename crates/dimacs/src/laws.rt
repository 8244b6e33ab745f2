ghost use Rattle.std.specs.Prelude.{◌≡◌, ℕ, List};
ghost use Rattle.cnf.specs.Clauses.{Formula};
ghost use Rattle.dimacs.specs.declared.fault.DimacsFault.{DimacsFault as AnyFault};
ghost use Rattle.dimacs.specs.Reading.{Reads, Refuses};

/// Bytes are the text of one formula, or are refused once: not both, and not neither.
pub fn one_formula()
    ensures same_formula { (bytes : List ℕ) (first second : Formula)
        → Reads bytes first → Reads bytes second → first ≡ second }
    ensures same_fault { (bytes : List ℕ) (first second : AnyFault)
        → Refuses bytes first → Refuses bytes second → first ≡ second }
    ensures not_both { (bytes : List ℕ) (formula : Formula) (fault : AnyFault)
        → Reads bytes formula → Refuses bytes fault → ⊥ }
    ensures not_neither { (bytes : List ℕ)
        → ((formula : Formula) → Reads bytes formula → ⊥)
        → ((fault : AnyFault) → Refuses bytes fault → ⊥) → ⊥ }
{}
