ghost use Rattle.std.specs.Prelude.{◌≡◌, ℕ, List};
ghost use Rattle.query_lang.specs.declared.script.Script.{Script as AnyScript};
ghost use Rattle.query_lang.specs.declared.script.ScriptReason.{ScriptReason as AnyReason};
ghost use Rattle.query_lang.specs.Readings.{Reads, Refuses};

use query_tokens::one_list_of_tokens;

/// Bytes are one script, or are refused once: not both, and not neither.
pub fn one_reading()
    ensures same_script { (bytes : List ℕ) (first second : AnyScript)
        → Reads bytes first → Reads bytes second → first ≡ second }
    ensures same_line { (bytes : List ℕ) (line other : ℕ) (why reason : AnyReason)
        → Refuses bytes line why → Refuses bytes other reason → line ≡ other }
    ensures same_reason { (bytes : List ℕ) (line other : ℕ) (why reason : AnyReason)
        → Refuses bytes line why → Refuses bytes other reason → why ≡ reason }
    ensures not_both { (bytes : List ℕ) (script : AnyScript) (line : ℕ) (why : AnyReason)
        → Reads bytes script → Refuses bytes line why → ⊥ }
    ensures not_neither { (bytes : List ℕ)
        → ((script : AnyScript) → Reads bytes script → ⊥)
        → ((line : ℕ) (why : AnyReason) → Refuses bytes line why → ⊥) → ⊥ }
{
    one_list_of_tokens();
}
