ghost use Rattle.std.specs.Prelude.{◌≡◌, ◌++◌, ◌∷◌, [], IsTrue, ◌↔◌, OnOk};
ghost use Rattle.std.specs.Char.{is_ascii_digit};
ghost use Rattle.std.specs.List.{list_all};
ghost use Rattle.query_lang.specs.Writing as specs;
ghost use Rattle.query_lang.specs.Words.{is_numeral};

use crate::NoMemory;
use crate::literal::Path;
use crate::write::pieces::{push_name, push_quoted, push_sign};
use query_tokens::{Sign, Token, is_name};
use sorted_logic::Text;
use std::alloc::Global;

/// Whether each byte is a decimal digit.
fn all_digits(text: &[u8]) -> bool
    ensures { result ≡ list_all is_ascii_digit text.now }
{
    text.iter().all(|byte| byte.is_ascii_digit())
}

/// Whether the text is of decimal digits, one or more.
#[tactic(auto, using(crate::proofs::Numerals::numeral_by_test))]
fn is_numeral(text: &Text) -> bool
    ensures { result ≡ is_numeral text.now }
{
    let bytes = text.bytes();
    if bytes.is_empty() {
        return false;
    }
    all_digits(bytes)
}

fn push_component(alloc: Global, out: &mut Vec<Token>, text: &Text) -> Result<(), NoMemory>
    ensures { OnOk result (out.new.items ≡ out.old.items ++ specs.component text.now ∷ []) }
{
    if is_name(text) {
        return push_name(alloc, out, text);
    }
    if is_numeral(text) {
        let text = text.copy(alloc)?;
        out.push(Token::Digits(text))?;
        return Ok(());
    }
    push_quoted(alloc, out, text)
}

pub fn push_path(alloc: Global, out: &mut Vec<Token>, path: &Path) -> Result<(), NoMemory>
    ensures { OnOk result (out.new.items ≡ out.old.items ++ specs.path path.now) }
{
    let [first, others @ ..] = path.parts.as_slice() else {
        return Ok(());
    };
    push_name(alloc, out, first)?;
    for part in others {
        push_sign(out, Sign::Dot)?;
        push_component(alloc, out, part)?;
    }
    Ok(())
}
