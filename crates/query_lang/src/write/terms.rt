ghost use Rattle.std.specs.Prelude.{◌≡◌, ◌++◌, ◌∷◌, [], OnOk};
ghost use Rattle.query_lang.specs.Writing as specs;

use crate::NoMemory;
use crate::term::{Arg, NamedTerm};
use crate::write::pieces::{push_name, push_sign};
use query_tokens::{Sign, Token};
use sorted_logic::Text;
use std::alloc::Global;

#[cycle(push_term)]
#[tactic(auto, using(crate::proofs::WrittenTerms::term_equations))]
pub fn push_term(alloc: Global, out: &mut Vec<Token>, value: &NamedTerm) -> Result<(), NoMemory>
    ensures { OnOk result (out.new.items ≡ out.old.items ++ specs.term value.now) }
{
    match value {
        NamedTerm::Name(text) => push_name(alloc, out, text),
        NamedTerm::Call { name, args } => push_call(alloc, out, name, args.as_slice()),
    }
}

/// Adds a name and its arguments.
#[cycle(push_term)]
pub fn push_call(
    alloc: Global,
    out: &mut Vec<Token>,
    name: &Text,
    args: &[Arg],
) -> Result<(), NoMemory>
    ensures { OnOk result (out.new.items ≡ out.old.items ++ specs.call name.now args.now) }
{
    push_name(alloc, out, name)?;
    push_sign(out, Sign::Open)?;
    push_arguments(alloc, out, args)?;
    push_sign(out, Sign::Close)
}

#[cycle(push_term)]
#[tactic(auto, using(crate::proofs::WrittenTerms::term_equations))]
fn push_argument(alloc: Global, out: &mut Vec<Token>, value: &Arg) -> Result<(), NoMemory>
    ensures { OnOk result (out.new.items ≡ out.old.items ++ specs.argument value.now) }
{
    match value {
        Arg::Req => push_sign(out, Sign::Request),
        Arg::Term(term) => push_term(alloc, out, term),
    }
}

/// Adds the arguments, with a comma between each two.
#[cycle(push_term)]
fn push_arguments(alloc: Global, out: &mut Vec<Token>, args: &[Arg]) -> Result<(), NoMemory>
    ensures { OnOk result (out.new.items
        ≡ out.old.items ++ specs.by_commas specs.argument args.now) }
{
    let [first, others @ ..] = args else {
        return Ok(());
    };
    push_argument(alloc, out, first)?;
    for arg in others {
        push_sign(out, Sign::Comma)?;
        push_argument(alloc, out, arg)?;
    }
    Ok(())
}
