ghost use Rattle.std.specs.Prelude.{◌≡◌, ℕ};
ghost use Rattle.ios_lex.specs.declared.reason.IosReason.{IosReason};
ghost use Rattle.ios_lex.specs.Phrases.{Words};
ghost use Rattle.ios_nat.specs.Reading.{IsRefused, Reads};
ghost use Rattle.ios_nat.specs.Table.{Table};

/// The words of a line give one table or are refused for one reason: not both, and not neither.
pub fn one_reading()
    ensures not_both { (table new : Table) (line : ℕ) (words : Words) (why : IosReason)
        → Reads table line words new → IsRefused table words why → ⊥ }
    ensures not_neither { (table : Table) (line : ℕ) (words : Words)
        → ((new : Table) → Reads table line words new → ⊥)
        → ((why : IosReason) → IsRefused table words why → ⊥) → ⊥ }
    ensures same_table { (table new other : Table) (line : ℕ) (words : Words)
        → Reads table line words new → Reads table line words other → new ≡ other }
    ensures same_reason { (table : Table) (words : Words) (why other : IosReason)
        → IsRefused table words why → IsRefused table words other → why ≡ other }
{}
