ghost use Rattle.std.specs.Prelude.{◌≡◌, ◌++◌, ◌∷◌, [], OnOk};
ghost use Rattle.query_tokens.specs.declared.token.Token.TheVariants as token;
ghost use Rattle.query_lang.specs.Writing as specs;
ghost use Rattle.query_lang.specs.Writing.{at_most, formula, parted, quantified, written};

use crate::NoMemory;
use crate::formula::Named;
use crate::literal::{Literal, Path};
use crate::term::{Arg, NamedTerm};
use crate::write::literals::{push_literal, push_range};
use crate::write::paths::push_path;
use crate::write::pieces::{push_name, push_sign, push_word};
use crate::write::terms::{push_call, push_term};
use query_tokens::{Keyword, Sign, Token};
use sorted_logic::Text;
use std::alloc::Global;

/// How loosely the formula joins its parts: 0 not at all, 1 by AND, 2 by OR, 3 by IMPLIES, 4 by IFF.
#[tactic(auto, using(crate::proofs::WrittenFormulas::formula_equations))]
fn joins(formula: &Named) -> u8
    ensures { result ≡ (written formula.now).joins }
{
    match formula {
        Named::And(_) => 1,
        Named::Or(_) => 2,
        Named::Implies(_, _) => 3,
        Named::Iff(_) => 4,
        Named::True | Named::False | Named::Not(_) => 0,
        Named::Forall {
            name: _,
            sort: _,
            body: _,
        } => 0,
        Named::Exists {
            name: _,
            sort: _,
            body: _,
        } => 0,
        Named::AtPath {
            path: _,
            word: _,
            args: _,
        } => 0,
        Named::Equal(_, _) | Named::Masked(_, _, _) | Named::Range(_, _, _) => 0,
        Named::Holds { name: _, args: _ } => 0,
    }
}

/// Adds a formula.
#[cycle(push_formula)]
#[tactic(auto, using(crate::proofs::WrittenFormulas::formula_equations))]
pub fn push_formula(alloc: Global, out: &mut Vec<Token>, value: &Named) -> Result<(), NoMemory>
    ensures { OnOk result (out.new.items ≡ out.old.items ++ formula value.now) }
{
    match value {
        Named::True => push_word(out, Keyword::True),
        Named::False => push_word(out, Keyword::False),
        Named::Not(body) => push_behind(alloc, out, Keyword::Not, 0, body.get()),
        Named::And(parts) => push_parts(alloc, out, Keyword::And, 0, parts.as_slice()),
        Named::Or(parts) => push_parts(alloc, out, Keyword::Or, 1, parts.as_slice()),
        Named::Implies(left, right) => {
            push_at_most(alloc, out, 2, left.get())?;
            push_behind(alloc, out, Keyword::Implies, 3, right.get())
        }
        Named::Iff(parts) => push_parts(alloc, out, Keyword::Iff, 3, parts.as_slice()),
        Named::Forall { name, sort, body } => {
            push_quantified(alloc, out, Keyword::Forall, name, sort, body.get())
        }
        Named::Exists { name, sort, body } => {
            push_quantified(alloc, out, Keyword::Exists, name, sort, body.get())
        }
        Named::AtPath { path, word, args } => {
            push_decided(alloc, out, path, word, args.as_slice())
        }
        Named::Equal(left, right) => push_equal(alloc, out, left, right),
        Named::Masked(term, value, wildcard) => push_masked(alloc, out, term, value, wildcard),
        Named::Range(term, lo, hi) => push_between(alloc, out, term, lo, hi),
        Named::Holds { name, args } => push_call(alloc, out, name, args.as_slice()),
    }
}

/// Adds a part of what joins its parts so loosely, between parentheses where it joins its own more loosely.
#[cycle(push_formula)]
fn push_at_most(alloc: Global, out: &mut Vec<Token>, most: u8, part: &Named) -> Result<(), NoMemory>
    ensures { OnOk result (out.new.items ≡ out.old.items ++ at_most most (written part.now)) }
{
    if joins(part) <= most {
        return push_formula(alloc, out, part);
    }
    push_sign(out, Sign::Open)?;
    push_formula(alloc, out, part)?;
    push_sign(out, Sign::Close)
}

/// Adds the word, and the part behind it.
#[cycle(push_formula)]
fn push_behind(
    alloc: Global,
    out: &mut Vec<Token>,
    word: Keyword,
    most: u8,
    part: &Named,
) -> Result<(), NoMemory>
    ensures { OnOk result (out.new.items
        ≡ out.old.items ++ token.Keyword word ∷ at_most most (written part.now)) }
{
    push_word(out, word)?;
    push_at_most(alloc, out, most, part)
}

#[cycle(push_formula)]
fn push_quantified(
    alloc: Global,
    out: &mut Vec<Token>,
    word: Keyword,
    name: &Text,
    sort: &Text,
    body: &Named,
) -> Result<(), NoMemory>
    ensures { OnOk result (out.new.items ≡ out.old.items
        ++ (quantified (token.Keyword word) name.now sort.now (written body.now)).tokens) }
{
    push_word(out, word)?;
    push_name(alloc, out, name)?;
    push_sign(out, Sign::Colon)?;
    push_name(alloc, out, sort)?;
    push_at_most(alloc, out, 0, body)
}

/// Adds the parts, with the word between each two.
#[cycle(push_formula)]
fn push_parts(
    alloc: Global,
    out: &mut Vec<Token>,
    word: Keyword,
    most: u8,
    parts: &[Named],
) -> Result<(), NoMemory>
    ensures { OnOk result (out.new.items ≡ out.old.items
        ++ parted (token.Keyword word) (λ part. at_most most (written part)) parts.now) }
{
    let [first, others @ ..] = parts else {
        return Ok(());
    };
    push_at_most(alloc, out, most, first)?;
    for part in others {
        push_behind(alloc, out, word, most, part)?;
    }
    Ok(())
}

fn push_decided(
    alloc: Global,
    out: &mut Vec<Token>,
    path: &Path,
    verdict: &Text,
    args: &[Arg],
) -> Result<(), NoMemory>
    ensures { OnOk result (out.new.items ≡ out.old.items
        ++ (specs.path path.now ++ token.Sign Sign.Colon ∷ specs.call verdict.now args.now)) }
{
    push_path(alloc, out, path)?;
    push_sign(out, Sign::Colon)?;
    push_call(alloc, out, verdict, args)
}

fn push_equal(
    alloc: Global,
    out: &mut Vec<Token>,
    left: &NamedTerm,
    right: &NamedTerm,
) -> Result<(), NoMemory>
    ensures { OnOk result (out.new.items ≡ out.old.items
        ++ (specs.term left.now ++ token.Sign Sign.Equals ∷ specs.term right.now)) }
{
    push_term(alloc, out, left)?;
    push_sign(out, Sign::Equals)?;
    push_term(alloc, out, right)
}

fn push_masked(
    alloc: Global,
    out: &mut Vec<Token>,
    term: &NamedTerm,
    value: &Literal,
    wildcard: &Literal,
) -> Result<(), NoMemory>
    ensures { OnOk result (out.new.items ≡ out.old.items ++ (specs.term term.now
        ++ token.Keyword Keyword.In ∷ specs.literal value.now ∷ specs.literal wildcard.now ∷ [])) }
{
    push_term(alloc, out, term)?;
    push_word(out, Keyword::In)?;
    push_literal(alloc, out, value)?;
    push_literal(alloc, out, wildcard)
}

fn push_between(
    alloc: Global,
    out: &mut Vec<Token>,
    term: &NamedTerm,
    lo: &Literal,
    hi: &Literal,
) -> Result<(), NoMemory>
    ensures { OnOk result (out.new.items ≡ out.old.items
        ++ (specs.term term.now ++ token.Keyword Keyword.In ∷ specs.range lo.now hi.now)) }
{
    push_term(alloc, out, term)?;
    push_word(out, Keyword::In)?;
    push_range(alloc, out, lo, hi)
}
