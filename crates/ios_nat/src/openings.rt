ghost use Rattle.std.specs.Prelude.{◌≡◌, ◌++◌, ◌∷◌, ℕ, List, IfSome, IfNone};
ghost use Rattle.ios_lex.specs.Phrases.{Words};
ghost use Rattle.ios_nat.specs.Grammar.{opening_words, source_words};
ghost use Rattle.ios_nat.specs.declared.kind.Kind.{Kind as KindOf};

use crate::kind::Kind;
use ios_lex::{Word, behind};

const SOURCE: [&str; 4] = ["ip", "nat", "inside", "source"];

/// The kind of the line, and the words behind its opening. None where it is of none of the kinds.
pub(crate) fn opening(words: &[Word]) -> Option<(Kind, &[Word])>
    ensures found { IfSome result (λ opened. words.now ≡ opening_words opened.0 ++ opened.1.now) }
    ensures none { IfNone result
        ((kind : KindOf) (rest : Words) → words.now ≡ opening_words kind ++ rest → ⊥) }
{
    if let Some(rest) = behind(words, Kind::Static.opening()) {
        return Some((Kind::Static, rest));
    }
    if let Some(rest) = behind(words, Kind::Dynamic.opening()) {
        return Some((Kind::Dynamic, rest));
    }
    let rest = behind(words, Kind::Pool.opening())?;
    Some((Kind::Pool, rest))
}

/// The word behind `ip nat inside source`.
pub(crate) fn other_source(words: &[Word]) -> Option<&Word>
    ensures found { IfSome result
        (λ word. (more : Words) × (words.now ≡ source_words ++ word.now ∷ more)) }
    ensures none { IfNone result
        ((word : List ℕ) (more : Words) → words.now ≡ source_words ++ word ∷ more → ⊥) }
{
    let rest = behind(words, &SOURCE)?;
    let (word, _) = rest.split_first()?;
    Some(word)
}
