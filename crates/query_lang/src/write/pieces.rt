ghost use Rattle.std.specs.Prelude.{◌≡◌, ◌++◌, ◌∷◌, [], OnOk};
ghost use Rattle.query_tokens.specs.declared.token.Token.TheVariants as token;
ghost use Rattle.query_lang.specs.Writing as specs;

use crate::NoMemory;
use query_tokens::{Keyword, Sign, Token};
use sorted_logic::Text;
use std::alloc::Global;

pub fn push_word(out: &mut Vec<Token>, word: Keyword) -> Result<(), NoMemory>
    ensures { OnOk result (out.new.items ≡ out.old.items ++ token.Keyword word ∷ []) }
{
    out.push(Token::Keyword(word))?;
    Ok(())
}

pub fn push_sign(out: &mut Vec<Token>, sign: Sign) -> Result<(), NoMemory>
    ensures { OnOk result (out.new.items ≡ out.old.items ++ token.Sign sign ∷ []) }
{
    out.push(Token::Sign(sign))?;
    Ok(())
}

pub fn push_name(alloc: Global, out: &mut Vec<Token>, text: &Text) -> Result<(), NoMemory>
    ensures { OnOk result (out.new.items ≡ out.old.items ++ token.Name text.now ∷ []) }
{
    let text = text.copy(alloc)?;
    out.push(Token::Name(text))?;
    Ok(())
}

pub fn push_quoted(alloc: Global, out: &mut Vec<Token>, text: &Text) -> Result<(), NoMemory>
    ensures { OnOk result (out.new.items ≡ out.old.items ++ token.Quoted text.now ∷ []) }
{
    let text = text.copy(alloc)?;
    out.push(Token::Quoted(text))?;
    Ok(())
}

/// Adds a number, in decimal.
pub fn push_number(alloc: Global, out: &mut Vec<Token>, n: u128) -> Result<(), NoMemory>
    ensures { OnOk result (out.new.items ≡ out.old.items ++ specs.numeral n ∷ []) }
{
    let digits = format!(in alloc; "{n}")?;
    let text = Text::of(alloc, digits.as_str())?;
    out.push(Token::Digits(text))?;
    Ok(())
}
