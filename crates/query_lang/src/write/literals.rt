ghost use Rattle.std.specs.Prelude.{◌≡◌, ◌++◌, ◌∷◌, [], OnOk};
ghost use Rattle.query_lang.specs.Writing as specs;

use crate::NoMemory;
use crate::literal::Literal;
use crate::write::pieces::{push_number, push_quoted, push_word};
use query_tokens::{Keyword, Token};
use std::alloc::Global;

pub fn push_literal(alloc: Global, out: &mut Vec<Token>, value: &Literal) -> Result<(), NoMemory>
    ensures { OnOk result (out.new.items ≡ out.old.items ++ specs.literal value.now ∷ []) }
{
    match value {
        Literal::Number(n) => push_number(alloc, out, *n),
        Literal::Interface(text) => push_quoted(alloc, out, text),
    }
}

fn same_literal(left: &Literal, right: &Literal) -> bool
    ensures { result ≡ specs.same_literal left.now right.now }
{
    match left {
        Literal::Number(m) => match right {
            Literal::Number(n) => *m == *n,
            Literal::Interface(_) => false,
        },
        Literal::Interface(text) => match right {
            Literal::Number(_) => false,
            Literal::Interface(other) => text.bytes() == other.bytes(),
        },
    }
}

/// Adds what lies between two: one of them where they are the same.
pub fn push_range(
    alloc: Global,
    out: &mut Vec<Token>,
    lo: &Literal,
    hi: &Literal,
) -> Result<(), NoMemory>
    ensures { OnOk result (out.new.items ≡ out.old.items ++ specs.range lo.now hi.now) }
{
    push_literal(alloc, out, lo)?;
    if same_literal(lo, hi) {
        return Ok(());
    }
    push_word(out, Keyword::To)?;
    push_literal(alloc, out, hi)
}
