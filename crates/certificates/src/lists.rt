ghost use Rattle.std.specs.Prelude.{◌≡◌, ℕ, List, IfOk, IfSome, IfNone};
ghost use Rattle.std.specs.Fmt.{decimal};
ghost use Rattle.std.specs.List.{All};
ghost use Rattle.cnf.specs.declared.lit.Lit.{Lit as AnyLit};
ghost use Rattle.certificates.specs.Writable.{IsWritableNumber};
ghost use Rattle.certificates.specs.Text.{lit_text, numbers_text};
ghost use Rattle.certificates.specs.Parts.Entries.{BeginsList, IsWritableLit};

use crate::NoMemory;
use crate::cut::behind_byte;
use crate::words::{first_lit, first_number};
use cnf::Lit;
use std::alloc::Global;

/// The literals up to the 0 that ends them, and what stands behind it.
pub fn lits(alloc: Global, text: &[u8]) -> Result<Option<(Vec<Lit>, &[u8])>, NoMemory>
    ensures found { IfOk result (λ read. IfSome read
        (λ found. BeginsList IsWritableLit lit_text text.now found.0.items found.1.now)) }
    ensures none { IfOk result (λ read. IfNone read ((lits : List AnyLit) (rest : List ℕ)
        → BeginsList IsWritableLit lit_text text.now lits rest → ⊥)) }
{
    let mut lits = Vec::new(alloc);
    let mut rest = text;
    while let Some((lit, behind)) = first_lit(rest) {
        lits.push(lit)?;
        rest = behind;
    }
    match behind_byte(rest, b'0') {
        Some(behind) => Ok(Some((lits, behind))),
        None => Ok(None),
    }
}

/// The numbers up to the 0 that ends them, and what stands behind it.
fn first_numbers(alloc: Global, text: &[u8]) -> Result<Option<(Vec<usize>, &[u8])>, NoMemory>
    ensures found { IfOk result (λ read. IfSome read
        (λ found. BeginsList IsWritableNumber decimal text.now found.0.items found.1.now)) }
    ensures none { IfOk result (λ read. IfNone read ((numbers rest : List ℕ)
        → BeginsList IsWritableNumber decimal text.now numbers rest → ⊥)) }
{
    let mut numbers = Vec::new(alloc);
    let mut rest = text;
    while let Some((n, behind)) = first_number(rest) {
        numbers.push(n)?;
        rest = behind;
    }
    match behind_byte(rest, b'0') {
        Some(behind) => Ok(Some((numbers, behind))),
        None => Ok(None),
    }
}

/// The numbers that the whole text lists.
pub fn numbers(alloc: Global, text: &[u8]) -> Result<Option<Vec<usize>>, NoMemory>
    ensures found { IfOk result (λ read. IfSome read (λ numbers.
        All IsWritableNumber numbers.items × (text.now ≡ numbers_text numbers.items))) }
    ensures none { IfOk result (λ read. IfNone read ((numbers : List ℕ)
        → All IsWritableNumber numbers → text.now ≡ numbers_text numbers → ⊥)) }
{
    let Some((numbers, rest)) = first_numbers(alloc, text)? else {
        return Ok(None);
    };
    if !rest.is_empty() {
        return Ok(None);
    }
    Ok(Some(numbers))
}
