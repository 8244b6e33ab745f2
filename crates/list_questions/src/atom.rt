ghost use Rattle.std.specs.Prelude.{◌≡◌, IfSome, IfNone};
ghost use Rattle.ios_acl.specs.declared.entry.Verdict.{Verdict};
ghost use Rattle.list_questions.specs.Questions.{decided, verdict_word};
ghost use Rattle.list_questions.specs.Shapes.{IsNoAtom};

use ios_acl::Verdict;
use query_lang::{Arg, Named, Path};
use sorted_logic::Text;

/// That a list of a router decides so.
#[derive(Clone, Copy)]
pub(crate) struct ListAtom<'a> {
    pub(crate) router: &'a Text,
    pub(crate) list: &'a Text,
    pub(crate) verdict: Verdict,
}

/// What the formula says of a list, where it says of the packet that comes in how the list decides.
pub(crate) fn list_atom(formula: &Named) -> Option<ListAtom<'_>>
    ensures found { IfSome result (λ atom.
        formula.now ≡ decided atom.router.now atom.list.now atom.verdict) }
    ensures none { IfNone result (IsNoAtom formula.now) }
{
    let Named::AtPath { path, word, args } = formula else {
        return None;
    };
    let [router, kind, list] = path.parts.as_slice() else {
        return None;
    };
    let [Arg::Req] = args.as_slice() else {
        return None;
    };
    if kind.bytes() != b"acl".as_slice() {
        return None;
    }
    let verdict = verdict_of(word.bytes())?;
    Some(ListAtom {
        router,
        list,
        verdict,
    })
}

/// The verdict that the word stands for.
fn verdict_of(word: &[u8]) -> Option<Verdict>
    ensures found { IfSome result (λ verdict. word.now ≡ verdict_word verdict) }
    ensures none { IfNone result ((verdict : Verdict) → word.now ≡ verdict_word verdict → ⊥) }
{
    match word {
        b"permit" => Some(Verdict::Permit),
        b"deny" => Some(Verdict::Deny),
        _ => None,
    }
}
