ghost use Rattle.std.specs.Prelude.{◌≡◌, ℕ, List, drop, map, IfSome, IfNone};
ghost use Rattle.std.specs.String.{string_bytes};
ghost use Rattle.session.specs.Words.{IsForm};

/// The words behind the program's name, which is the first.
pub fn behind_name(words: &[String]) -> &[String]
    ensures { result.now ≡ drop 1 words.now }
{
    match words {
        [_, rest @ ..] => rest,
        [] => words,
    }
}

/// The script that the words of the command line name: one word that does not begin with a dash, but may be a dash.
pub fn script_of(words: &[String]) -> Option<&str>
    ensures form { IfSome result (λ script. IsForm (map string_bytes words.now) script.now) }
    ensures none { IfNone result
        ((script : List ℕ) → IsForm (map string_bytes words.now) script → ⊥) }
{
    let [word] = words else {
        return None;
    };
    let script = word.as_str();
    if script.as_bytes().first() == Some(&b'-') && script.len() != 1 {
        return None;
    }
    Some(script)
}
