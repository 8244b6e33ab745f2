ghost use Rattle.std.specs.Prelude.{◌≡◌, ◌∷◌, [], codes, OnOk, IfErr, IfSome, IfNone, false};
ghost use Rattle.ios_lex.specs.Refusal.{is_among};
ghost use Rattle.ios_acl.specs.Block.{kind_word};
ghost use Rattle.ios_lists.specs.Faults.{IsAclFault};
ghost use Rattle.ios_lists.specs.Rules.{rule_words, unmodelled_words, BeginsRule, IsNoRule};

use ios_acl::{AclFault, is_unmodelled, unmodelled};
use ios_lex::{IosReason, Word};
use std::alloc::Global;

/// Whether the word says that a list is extended, or standard. None where it says neither.
pub fn kind(word: &Word) -> Option<bool>
    ensures found { IfSome result (λ extended. word.now ≡ kind_word extended) }
    ensures none { IfNone result
        (is_among (codes "standard" ∷ codes "extended" ∷ []) word.now ≡ false) }
{
    if word.is("extended") {
        Some(true)
    } else if word.is("standard") {
        Some(false)
    } else {
        None
    }
}

/// Whether the word begins an entry or a remark.
fn is_rule_word(word: &Word) -> bool
    ensures { result ≡ is_among rule_words word.now }
{
    word.is("permit") || word.is("deny") || word.is("remark")
}

/// Whether the word behind the number of a list stands for more than is modelled.
fn is_not_modelled(word: &Word) -> bool
    ensures { result ≡ is_among unmodelled_words word.now }
{
    word.is("dynamic") || is_unmodelled(word)
}

/// Whether the words begin an entry or a remark, and why not.
pub fn check_rule(alloc: Global, words: &[Word]) -> Result<(), AclFault>
    ensures begins { OnOk result (BeginsRule words.now) }
    ensures refused { IfErr result (IsAclFault (IsNoRule words.now)) }
{
    let Some((first, _)) = words.split_first() else {
        return Err(AclFault::Refused(IosReason::BadEntry));
    };
    if is_not_modelled(first) {
        return Err(unmodelled(alloc, first));
    }
    if is_rule_word(first) {
        Ok(())
    } else {
        Err(AclFault::Refused(IosReason::BadEntry))
    }
}
