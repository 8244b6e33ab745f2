ghost use Rattle.std.specs.Prelude.{◌≡◌, ◌++◌, ◌∷◌, [], OnOk};
ghost use Rattle.query_tokens.specs.declared.token.Token.TheVariants as token;
ghost use Rattle.query_lang.specs.Writing as specs;

use crate::NoMemory;
use crate::formula::Named;
use crate::script::Explore;
use crate::write::formulas::push_formula;
use crate::write::pieces::{push_name, push_sign, push_word};
use query_tokens::{Keyword, Sign, Token};
use sorted_logic::Text;
use std::alloc::Global;

/// Adds a declared variable and its sort.
fn push_declared(
    alloc: Global,
    out: &mut Vec<Token>,
    variable: &(Text, Text),
) -> Result<(), NoMemory>
    ensures { OnOk result (out.new.items ≡ out.old.items ++ specs.declared variable.now) }
{
    push_name(alloc, out, &variable.0)?;
    push_sign(out, Sign::Colon)?;
    push_name(alloc, out, &variable.1)
}

/// Adds the declared variables between brackets, if there are any.
fn push_variables(alloc: Global, out: &mut Vec<Token>, all: &[(Text, Text)]) -> Result<(), NoMemory>
    ensures { OnOk result (out.new.items ≡ out.old.items ++ specs.variables all.now) }
{
    let [first, others @ ..] = all else {
        return Ok(());
    };
    push_sign(out, Sign::OpenBracket)?;
    push_declared(alloc, out, first)?;
    for variable in others {
        push_sign(out, Sign::Comma)?;
        push_declared(alloc, out, variable)?;
    }
    push_sign(out, Sign::CloseBracket)
}

/// Adds what the question is asked under, if anything.
fn push_under(alloc: Global, out: &mut Vec<Token>, names: &[Text]) -> Result<(), NoMemory>
    ensures { OnOk result (out.new.items ≡ out.old.items ++ specs.under names.now) }
{
    let [first, others @ ..] = names else {
        return Ok(());
    };
    push_word(out, Keyword::Under)?;
    push_name(alloc, out, first)?;
    for name in others {
        push_sign(out, Sign::Comma)?;
        push_name(alloc, out, name)?;
    }
    Ok(())
}

/// Adds the atoms that are shown beside, if there are any.
fn push_included(alloc: Global, out: &mut Vec<Token>, atoms: &[Named]) -> Result<(), NoMemory>
    ensures { OnOk result (out.new.items ≡ out.old.items ++ specs.included atoms.now) }
{
    let [first, others @ ..] = atoms else {
        return Ok(());
    };
    push_word(out, Keyword::Include)?;
    push_formula(alloc, out, first)?;
    for atom in others {
        push_sign(out, Sign::Comma)?;
        push_formula(alloc, out, atom)?;
    }
    Ok(())
}

pub fn push_explore(alloc: Global, out: &mut Vec<Token>, what: &Explore) -> Result<(), NoMemory>
    ensures { OnOk result (out.new.items ≡ out.old.items ++ specs.explore what.now) }
{
    push_word(out, Keyword::Explore)?;
    push_variables(alloc, out, what.vars.as_slice())?;
    push_formula(alloc, out, &what.formula)?;
    push_under(alloc, out, what.under.as_slice())?;
    push_included(alloc, out, what.include.as_slice())
}
