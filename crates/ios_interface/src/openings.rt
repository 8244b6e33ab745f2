ghost use Rattle.std.specs.Prelude.{◌≡◌, ◌++◌, IfSome, IfNone};
ghost use Rattle.ios_lex.specs.Phrases.{Words};
ghost use Rattle.ios_lex.specs.Refusal.{texts};
ghost use Rattle.ios_interface.specs.Grammar.{opening_words};
ghost use Rattle.ios_interface.specs.Reading.{IsUnmodelled};
ghost use Rattle.ios_interface.specs.declared.kind.Kind.{Kind as KindOf};

use crate::kind::{Kind, Setting};
use ios_lex::{Word, behind, first_opening};

/// The kinds of lines that are modelled.
const KINDS: [Kind; 7] = [
    Kind::Address,
    Kind::AccessGroup,
    Kind::Setting(Setting::NoAddress),
    Kind::Setting(Setting::Inside),
    Kind::Setting(Setting::Outside),
    Kind::Setting(Setting::Shutdown),
    Kind::Setting(Setting::NoShutdown),
];

/// The words of lines that change forwarding in a way that is not modelled.
const UNMODELLED: [&[&str]; 11] = [
    &["ip", "policy"],
    &["crypto", "map"],
    &["ip", "inspect"],
    &["zone-member"],
    &["ip", "vrf"],
    &["vrf"],
    &["ip", "verify"],
    &["ip", "unnumbered"],
    &["ip", "address", "dhcp"],
    &["ip", "address", "negotiated"],
    &["ip", "nat", "enable"],
];

/// The kind of the line, and the words behind its opening. None where it is of none of the kinds.
pub(crate) fn opening(words: &[Word]) -> Option<(Kind, &[Word])>
    ensures found { IfSome result (λ opened. words.now ≡ opening_words opened.0 ++ opened.1.now) }
    ensures none { IfNone result
        ((kind : KindOf) (rest : Words) → words.now ≡ opening_words kind ++ rest → ⊥) }
{
    for kind in KINDS {
        if let Some(rest) = behind(words, kind.opening()) {
            return Some((kind, rest));
        }
    }
    None
}

/// The words with which the line begins, where it is for these not modelled.
pub(crate) fn unmodelled_opening(words: &[Word]) -> Option<&'static [&'static str]>
    ensures found { IfSome result (λ opening. IsUnmodelled words.now (texts opening.now)) }
    ensures none { IfNone result ((opening : Words) → IsUnmodelled words.now opening → ⊥) }
{
    let opening = first_opening(words, &UNMODELLED)?;
    Some(opening)
}
