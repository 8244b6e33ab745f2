ghost use Rattle.std.specs.Prelude.{◌≡◌, ◌≤◌, length, IfOk};
ghost use Rattle.ios_lex.specs.declared.reason.IosReason.TheVariants as reasons;
ghost use Rattle.ios_lex.specs.Refusal as specs;
ghost use Rattle.ios_lex.specs.Refusal.{texts};
ghost use Rattle.ios_lex.specs.Stops as stops;
ghost use Rattle.ios_lex.specs.Stops.{expected_of, is_lax, reason_where};

use crate::reason::IosReason;
use crate::stop::{Due, Stop};
use crate::word::Word;
use std::alloc::{AllocError, Global};

/// The reason of a stop among the words: that of the word there, or that they end too early.
pub fn stop_reason(
    alloc: Global,
    words: &[Word],
    stop: Stop,
    table: &[&str],
    lax: IosReason,
) -> Result<IosReason, AllocError>
    requires { stop.left ≤ length words.now }
    ensures { IfOk result
        (λ why. why ≡ stops.stop_reason (texts table.now) lax words.now stop) }
{
    if stop.left == 0 {
        return Ok(IosReason::BadEntry);
    }
    let word = &words[words.len() - stop.left];
    reason_of(alloc, word, table, stop.due, lax)
}

/// The reason of a word where something else is due. The words of the table are not modelled; `lax` is the reason where
/// only a line that is lax goes on with the word.
pub fn reason_of(
    alloc: Global,
    word: &Word,
    table: &[&str],
    due: Due,
    lax: IosReason,
) -> Result<IosReason, AllocError>
    ensures { IfOk result (λ why. why ≡ reason_where (texts table.now) lax due word.now) }
{
    if is_among(word, table) {
        unmodelled(alloc, word)
    } else {
        Ok(due_reason(due, begins_with_digit(word), lax))
    }
}

/// The reason of a word that stands for more than is modelled.
pub fn unmodelled(alloc: Global, word: &Word) -> Result<IosReason, AllocError>
    ensures { IfOk result (λ why. why ≡ reasons.Unmodelled word.now) }
{
    Ok(IosReason::Unmodelled(word.copy(alloc)?))
}

/// Whether the word is one of the table.
pub fn is_among(word: &Word, table: &[&str]) -> bool
    ensures { result ≡ specs.is_among (texts table.now) word.now }
{
    for text in table {
        if word.is(text) {
            return true;
        }
    }
    false
}

/// The words that are not modelled at a place of a line: from the place `from` on those of the table, and before it
/// others.
pub fn table_at<'a>(
    from: usize,
    before: &'a [&'a str],
    table: &'a [&'a str],
    place: usize,
) -> &'a [&'a str]
    ensures { texts result.now ≡ specs.table_at from (texts before.now) (texts table.now) place }
{
    if place < from { before } else { table }
}

/// Whether the word begins with a decimal digit.
pub fn begins_with_digit(word: &Word) -> bool
    ensures { result ≡ specs.begins_with_digit word.now }
{
    word.bytes()
        .first()
        .is_some_and(|byte| byte.is_ascii_digit())
}

/// The reason why a word that may begin with a digit can't stand where something else is due.
fn due_reason(due: Due, digit: bool, lax: IosReason) -> IosReason
    ensures { result ≡ specs.due_reason lax (expected_of due) (is_lax due) digit }
{
    match due {
        Due::Order | Due::Mask | Due::Name => lax,
        Due::Address => IosReason::BadAddress,
        Due::AddressOrEnd if digit => IosReason::BadAddress,
        Due::Number | Due::NameOrEnd | Due::NumberOrEnd | Due::AddressOrNumberOrEnd if digit => {
            IosReason::BadNumber
        }
        Due::Number | Due::NameOrEnd => IosReason::UnknownName,
        Due::AddressOrEnd
        | Due::NumberOrEnd
        | Due::AddressOrNumberOrEnd
        | Due::Keyword
        | Due::Nothing => IosReason::BadEntry,
    }
}
