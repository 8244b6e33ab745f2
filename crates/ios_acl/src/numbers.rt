ghost use Rattle.std.specs.Prelude.{◌≡◌, ◌<◌, ◌≤◌, ◌∷◌, ℕ, List, length, nat_lt, true, false, IsTrue, ◌↔◌, IfSome, IfNone};
ghost use Rattle.std.specs.List.{filter};
ghost use Rattle.ios_acl.specs.declared.entry.Entry.{Entry as EntryOf};
ghost use Rattle.ios_acl.specs.List as specs;
ghost use Rattle.ios_acl.specs.List.{greatest_sequence, IsRising};
ghost use Rattle.ios_acl.specs.Reading.{IsNumberOf, IsOpened, IsTaken};

use crate::entry::Entry;
use crate::spelled::verdict_of;
use ios_lex::{Word, number};

/// The greatest number that an entry may have.
const GREATEST: u32 = 2_147_483_647;

/// The number that may stand first on a line, and the words behind it.
pub fn opened(words: &[Word]) -> (Option<u32>, &[Word])
    ensures opened { IsOpened words.now result.0 result.1.now }
    ensures some { IfSome result.0 (λ n. 0 < n) }
    ensures small { IfSome result.0 (λ n. n ≤ greatest_sequence) }
{
    let Some((first, rest)) = words.split_first() else {
        return (None, words);
    };
    match number(first.bytes(), u64::from(GREATEST)) {
        Some(n) if n > 0 => (Some(n as u32), rest),
        _ => (None, words),
    }
}

/// How many of the entries have smaller numbers.
pub fn place_of(entries: &[Entry], number: u32) -> usize
    requires { IsRising entries.now }
    ensures { result ≡ length (filter (λ (e : EntryOf). nat_lt e.number number) entries.now) }
{
    entries.partition_point(|entry| entry.number < number)
}

/// Whether an entry has this number.
fn has_number(entries: &[Entry], number: u32) -> bool
    requires { IsRising entries.now }
    ensures { result ≡ specs.has_number entries.now number }
{
    let place = place_of(entries, number);
    place < entries.len() && entries[place].number == number
}

/// Whether a line gives its entry a number that one of these has.
pub fn is_taken(entries: &[Entry], number: Option<u32>, rest: &[Word]) -> bool
    requires { IsRising entries.now }
    ensures { IsTrue result ↔ IsTaken entries.now number rest.now }
{
    let Some(number) = number else {
        return false;
    };
    let Some(first) = rest.first() else {
        return false;
    };
    verdict_of(first).is_some() && has_number(entries, number)
}

/// The number of an entry that is written without one. None where it would be too great.
fn next_number(entries: &[Entry]) -> Option<u32>
    requires { IsRising entries.now }
    ensures found { IfSome result (λ n. n ≡ specs.next_number entries.now) }
    ensures small { IfSome result (λ n. n ≤ greatest_sequence) }
    ensures none { IfNone result (greatest_sequence < specs.next_number entries.now) }
{
    let Some(last) = entries.last() else {
        return Some(10);
    };
    let next = last.number.checked_add(10)?;
    if next <= GREATEST { Some(next) } else { None }
}

/// The number of an entry that is written with this one, or without one. None where it would be too great.
pub fn number_of(entries: &[Entry], number: Option<u32>) -> Option<u32>
    requires rising { IsRising entries.now }
    requires some { IfSome number (λ n. 0 < n) }
    requires small { IfSome number (λ n. n ≤ greatest_sequence) }
    requires free { IfSome number (λ n. specs.has_number entries.now n ≡ false) }
    ensures found { IfSome result (IsNumberOf entries.now number) }
    ensures some { IfSome result (λ n. 0 < n) }
    ensures small { IfSome result (λ n. n ≤ greatest_sequence) }
    ensures free { IfSome result (λ n. specs.has_number entries.now n ≡ false) }
    ensures none { IfNone result
        ((number ≡ None) × (greatest_sequence < specs.next_number entries.now)) }
{
    match number {
        Some(number) => Some(number),
        None => next_number(entries),
    }
}
