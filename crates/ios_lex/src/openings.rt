ghost use Rattle.std.specs.Prelude.{◌≡◌, ◌++◌, IfSome, IfNone, IfOk};
ghost use Rattle.std.specs.List.{AllByRecursion};
ghost use Rattle.ios_lex.specs.Openings.{BeginsAmong, LacksOpening, joined, openings_of};
ghost use Rattle.ios_lex.specs.Phrases.{Words};
ghost use Rattle.ios_lex.specs.Refusal.{texts};
ghost use Rattle.ios_lex.specs.declared.reason.IosReason.TheVariants as reasons;

use crate::reason::IosReason;
use crate::word::Word;
use std::alloc::{AllocError, Global};

/// The words behind these. None where the words do not begin so.
pub fn behind<'a>(words: &'a [Word], opening: &[&str]) -> Option<&'a [Word]>
    ensures found { IfSome result (λ rest. words.now ≡ texts opening.now ++ rest.now) }
    ensures none { IfNone result
        ((rest : Words) → words.now ≡ texts opening.now ++ rest → ⊥) }
{
    let Some((text, others)) = opening.split_first() else {
        return Some(words);
    };
    let (first, rest) = words.split_first()?;
    if first.is(text) {
        behind(rest, others)
    } else {
        None
    }
}

/// The first of these openings with which the words begin.
pub fn first_opening<'a>(words: &[Word], openings: &[&'a [&'a str]]) -> Option<&'a [&'a str]>
    ensures found { IfSome result
        (λ opening. BeginsAmong (openings_of openings.now) words.now (texts opening.now)) }
    ensures none { IfNone result
        (AllByRecursion (LacksOpening words.now) (openings_of openings.now)) }
{
    let (first, others) = openings.split_first()?;
    if behind(words, first).is_some() {
        return Some(*first);
    }
    first_opening(words, others)
}

/// The reason of a line that begins with these words and is not modelled.
pub fn unmodelled_words(alloc: Global, opening: &[&str]) -> Result<IosReason, AllocError>
    ensures { IfOk result (λ why. why ≡ reasons.Unmodelled (joined (texts opening.now))) }
{
    let text = opening.join(alloc, " ")?;
    Ok(IosReason::Unmodelled(Word::of(alloc, text.as_bytes())?))
}
