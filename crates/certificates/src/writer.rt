ghost use Rattle.std.specs.Prelude.{◌≡◌, ◌+◌, ◌^◌, ◌<◌, ◌++◌, codes, IfOk, OnOk};
ghost use Rattle.std.specs.Fmt.{decimal};
ghost use Rattle.std.specs.List.{All, flat_map};
ghost use Rattle.certificates.specs.Writable.{IsWritableCertificate, IsWritableItem, IsWritableStep};
ghost use Rattle.certificates.specs.Text.{certificate_text, delete_text, head_text, item_text, lit_text, lits_text, numbers_text, qed_text, step_text};
ghost use Rattle.certificates.specs.Parts.Entries.{IsWritableLit};

use crate::NoMemory;
use crate::derivation::{Certificate, Item, Step};
use cnf::Lit;
use std::alloc::Global;

/// Writes the text of the certificate, in version 2. Each line ends with a line feed.
pub fn write_certificate(alloc: Global, c: &Certificate) -> Result<Vec<u8>, NoMemory>
    requires { IsWritableCertificate c.now }
    ensures { IfOk result (λ text. text.items ≡ certificate_text c.now) }
{
    let mut text = Vec::new(alloc);
    push_head(alloc, &mut text, c.line)?;
    for item in c.derivation.items() {
        push_item(alloc, &mut text, item)?;
    }
    text.extend_from_slice(b"qed\n")?;
    Ok(text)
}

/// Writes the head of a text in version 2, and its line feed.
#[tactic(auto, unfolding(crate::specs::Text::head_text, crate::specs::Text::head_word))]
fn push_head(alloc: Global, text: &mut Vec<u8>, line: u64) -> Result<(), NoMemory>
    ensures { OnOk result (text.new.items ≡ text.old.items ++ (head_text 2 line ++ codes "\n")) }
{
    text.extend_from_slice(b"margrave-proof 2 ")?;
    push_number(alloc, text, line)?;
    text.push(b'\n')?;
    Ok(())
}

/// Writes an item, and its line feed.
fn push_item(alloc: Global, text: &mut Vec<u8>, item: &Item) -> Result<(), NoMemory>
    requires { IsWritableItem item.now }
    ensures { OnOk result (text.new.items ≡ text.old.items ++ (item_text item.now ++ codes "\n")) }
{
    match item {
        Item::Add(step) => push_step(alloc, text, step)?,
        Item::Delete(numbers) => push_deletion(alloc, text, numbers.as_slice())?,
    }
    text.push(b'\n')?;
    Ok(())
}

#[tactic(auto, unfolding(crate::specs::Text::step_text))]
fn push_step(alloc: Global, text: &mut Vec<u8>, step: &Step) -> Result<(), NoMemory>
    requires { IsWritableStep step.now }
    ensures { OnOk result (text.new.items ≡ text.old.items ++ step_text step.now) }
{
    push_lits(alloc, text, step.clause.lits())?;
    text.push(b' ')?;
    push_numbers(alloc, text, step.hints.as_slice())
}

#[tactic(auto, unfolding(crate::specs::Text::delete_text))]
fn push_deletion(alloc: Global, text: &mut Vec<u8>, numbers: &[usize]) -> Result<(), NoMemory>
    ensures { OnOk result (text.new.items ≡ text.old.items ++ delete_text numbers.now) }
{
    text.extend_from_slice(b"d ")?;
    push_numbers(alloc, text, numbers)
}

/// Writes the literals, a blank behind each, and the 0 that ends them.
#[tactic(auto, unfolding(crate::specs::Text::listed))]
fn push_lits(alloc: Global, text: &mut Vec<u8>, lits: &[Lit]) -> Result<(), NoMemory>
    requires { All IsWritableLit lits.now }
    ensures { OnOk result (text.new.items ≡ text.old.items ++ lits_text lits.now) }
{
    for lit in lits {
        push_lit(alloc, text, *lit)?;
        text.push(b' ')?;
    }
    text.push(b'0')?;
    Ok(())
}

/// Writes the numbers, a blank behind each, and the 0 that ends them.
#[tactic(auto, unfolding(crate::specs::Text::listed))]
fn push_numbers(alloc: Global, text: &mut Vec<u8>, numbers: &[usize]) -> Result<(), NoMemory>
    ensures { OnOk result (text.new.items ≡ text.old.items ++ numbers_text numbers.now) }
{
    for n in numbers {
        push_number(alloc, text, *n as u64)?;
        text.push(b' ')?;
    }
    text.push(b'0')?;
    Ok(())
}

/// Writes the literal: its variable's number from 1, behind a minus sign where it is negative.
#[tactic(auto, unfolding(crate::specs::Text::lit_text))]
pub fn push_lit(alloc: Global, text: &mut Vec<u8>, lit: Lit) -> Result<(), NoMemory>
    requires { IsWritableLit lit }
    ensures { OnOk result (text.new.items ≡ text.old.items ++ lit_text lit) }
{
    if lit.negative {
        text.push(b'-')?;
    }
    push_number(alloc, text, lit.var as u64 + 1)
}

fn push_number(alloc: Global, text: &mut Vec<u8>, n: u64) -> Result<(), NoMemory>
    ensures { OnOk result (text.new.items ≡ text.old.items ++ decimal n) }
{
    let word = format!(in alloc; "{n}")?;
    text.extend_from_slice(word.as_bytes())
}
