ghost use Rattle.std.specs.Prelude.{◌≡◌, ◌+◌, ◌^◌, ◌<◌, ◌++◌, ◌∷◌, ℕ, List, length, codes, [], IfOk, IfErr, IfSome, IfNone, IsTrue, OnOk, ◌↔◌};
ghost use Rattle.certificates.specs.declared.derivation.Step.{Step as AnyStep};
ghost use Rattle.certificates.specs.declared.derivation.Item.{Item as AnyItem};
ghost use Rattle.certificates.specs.Writable.{IsWritableStep, IsWritableDelete};
ghost use Rattle.certificates.specs.Lines.{text_lines};
ghost use Rattle.certificates.specs.Text.{delete_text, qed_text, step_text};
ghost use Rattle.certificates.specs.Parts.Places.{EndsItems, IsItemLine, StopsItems, IsItemsFault};

use crate::NoMemory;
use crate::cut::{behind, behind_byte};
use crate::derivation::{Item, Numbers, Step};
use crate::fault::CertFault;
use crate::lines::first_line;
use crate::lists::{lits, numbers};
use cnf::Clause;
use std::alloc::Global;

/// The step whose text the line is.
fn step(alloc: Global, line: &[u8]) -> Result<Option<Step>, NoMemory>
    ensures found { IfOk result (λ read. IfSome read (λ step.
        IsWritableStep step × (line.now ≡ step_text step))) }
    ensures none { IfOk result (λ read. IfNone read ((step : AnyStep)
        → IsWritableStep step → line.now ≡ step_text step → ⊥)) }
{
    let Some((lits, rest)) = lits(alloc, line)? else {
        return Ok(None);
    };
    let Some(hints) = behind_byte(rest, b' ') else {
        return Ok(None);
    };
    let Some(hints) = numbers(alloc, hints)? else {
        return Ok(None);
    };
    Ok(Some(Step {
        clause: Clause::from_lits(alloc, lits.as_slice())?,
        hints: Numbers::of(hints),
    }))
}

/// The numbers of the deletion whose text is `d `, and this behind it.
fn deletion(alloc: Global, text: &[u8]) -> Result<Option<Numbers>, NoMemory>
    ensures found { IfOk result (λ read. IfSome read (λ deleted.
        IsWritableDelete deleted × (codes "d " ++ text.now ≡ delete_text deleted))) }
    ensures none { IfOk result (λ read. IfNone read ((deleted : List ℕ)
        → IsWritableDelete deleted → codes "d " ++ text.now ≡ delete_text deleted → ⊥)) }
{
    let Some(deleted) = numbers(alloc, text)? else {
        return Ok(None);
    };
    if deleted.is_empty() {
        return Ok(None);
    }
    Ok(Some(Numbers::of(deleted)))
}

/// The item whose text in this version the line is.
fn item(alloc: Global, version: u64, line: &[u8]) -> Result<Option<Item>, NoMemory>
    ensures found { IfOk result (λ read. IfSome read (IsItemLine version line.now)) }
    ensures none { IfOk result (λ read. IfNone read
        ((item : AnyItem) → IsItemLine version line.now item → ⊥)) }
{
    let Some(deleted) = behind(line, b"d ") else {
        let step = step(alloc, line)?;
        return Ok(step.map(Item::Add));
    };
    if version != 2 {
        return Ok(None);
    }
    let deleted = deletion(alloc, deleted)?;
    Ok(deleted.map(Item::Delete))
}

fn is_qed(line: &[u8]) -> bool
    ensures { IsTrue result ↔ (line.now ≡ qed_text) }
{
    line == b"qed".as_slice()
}

fn push(items: &mut Vec<Item>, item: Item) -> Result<(), NoMemory>
    ensures { OnOk result (items.new.items ≡ items.old.items ++ item ∷ []) }
{
    items.push(item)?;
    Ok(())
}

/// The items that are the lines of the text up to `qed`. The first line has the given number.
pub fn items(alloc: Global, version: u64, first: u64, text: &[u8]) -> Result<Vec<Item>, CertFault>
    requires { first + length text.now < 2 ^ 64 }
    ensures read { IfOk result (λ items. EndsItems version (text_lines text.now) items.items) }
    ensures refused { IfErr result (IsItemsFault version (text_lines text.now) first) }
{
    let mut items = Vec::new(alloc);
    let mut number = first;
    let mut rest = text;
    while let Some((line, others)) = first_line(rest) {
        if is_qed(line) {
            return Ok(items);
        }
        let Some(item) = item(alloc, version, line)? else {
            return Err(CertFault::Malformed { line: number });
        };
        push(&mut items, item)?;
        number += 1;
        rest = others;
    }
    Err(CertFault::Malformed { line: number })
}
