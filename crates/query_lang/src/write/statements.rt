ghost use Rattle.std.specs.Prelude.{◌≡◌, ◌++◌, ◌∷◌, [], true, OnOk};
ghost use Rattle.query_tokens.specs.declared.token.Token.TheVariants as token;
ghost use Rattle.query_lang.specs.declared.script.Kind.TheVariants as kind;
ghost use Rattle.query_lang.specs.Writing as specs;
ghost use Rattle.query_lang.specs.Written.Routes.{is_route};

use crate::NoMemory;
use crate::literal::{Literal, NamedTest, Path};
use crate::script::Kind;
use crate::write::explore::push_explore;
use crate::write::literals::{push_literal, push_range};
use crate::write::paths::push_path;
use crate::write::pieces::{push_name, push_number, push_quoted, push_sign, push_word};
use query_tokens::{Keyword, Sign, Token};
use sorted_logic::Text;
use std::alloc::Global;

/// Adds the words behind SHOW, or behind LOAD.
fn push_words(out: &mut Vec<Token>, first: Keyword, second: Keyword) -> Result<(), NoMemory>
    ensures { OnOk result (out.new.items
        ≡ out.old.items ++ token.Keyword first ∷ token.Keyword second ∷ []) }
{
    push_word(out, first)?;
    push_word(out, second)
}

fn push_load(
    alloc: Global,
    out: &mut Vec<Token>,
    what: Keyword,
    file: &Text,
) -> Result<(), NoMemory>
    ensures { OnOk result (out.new.items ≡ out.old.items
        ++ specs.load (token.Keyword what ∷ token.Quoted file.now ∷ [])) }
{
    push_words(out, Keyword::Load, what)?;
    push_quoted(alloc, out, file)
}

fn push_load_as(
    alloc: Global,
    out: &mut Vec<Token>,
    what: Keyword,
    file: &Text,
    name: &Text,
) -> Result<(), NoMemory>
    ensures { OnOk result (out.new.items ≡ out.old.items
        ++ specs.load (token.Keyword what ∷ token.Quoted file.now
        ∷ token.Keyword Keyword.As ∷ token.Name name.now ∷ [])) }
{
    push_load(alloc, out, what, file)?;
    push_word(out, Keyword::As)?;
    push_name(alloc, out, name)
}

fn push_possible(out: &mut Vec<Token>) -> Result<(), NoMemory>
    ensures { OnOk result (out.new.items ≡ out.old.items ++ specs.statement kind.IsPossible) }
{
    push_words(out, Keyword::Is, Keyword::Possible)?;
    push_sign(out, Sign::Question)
}

fn push_show(out: &mut Vec<Token>, what: Keyword) -> Result<(), NoMemory>
    ensures { OnOk result (out.new.items ≡ out.old.items ++ specs.show (token.Keyword what ∷ [])) }
{
    push_words(out, Keyword::Show, what)
}

fn push_show_first(alloc: Global, out: &mut Vec<Token>, n: u64) -> Result<(), NoMemory>
    ensures { OnOk result (out.new.items ≡ out.old.items ++ specs.statement (kind.ShowFirst n)) }
{
    push_words(out, Keyword::Show, Keyword::First)?;
    push_number(alloc, out, n as u128)
}

fn push_show_up_to(alloc: Global, out: &mut Vec<Token>, n: u64) -> Result<(), NoMemory>
    ensures { OnOk result (out.new.items ≡ out.old.items ++ specs.statement (kind.ShowUpTo n)) }
{
    push_words(out, Keyword::Show, Keyword::Up)?;
    push_word(out, Keyword::To)?;
    push_number(alloc, out, n as u128)
}

fn push_compare(
    alloc: Global,
    out: &mut Vec<Token>,
    left: &Path,
    right: &Path,
) -> Result<(), NoMemory>
    ensures { OnOk result (out.new.items
        ≡ out.old.items ++ specs.statement (kind.Compare left.now right.now)) }
{
    push_word(out, Keyword::Compare)?;
    push_path(alloc, out, left)?;
    push_path(alloc, out, right)
}

/// Adds the literals, with a comma between each two.
fn push_packet(alloc: Global, out: &mut Vec<Token>, packet: &[Literal]) -> Result<(), NoMemory>
    ensures { OnOk result (out.new.items
        ≡ out.old.items ++ specs.by_commas (λ one. specs.literal one ∷ []) packet.now) }
{
    let [first, others @ ..] = packet else {
        return Ok(());
    };
    push_literal(alloc, out, first)?;
    for value in others {
        push_sign(out, Sign::Comma)?;
        push_literal(alloc, out, value)?;
    }
    Ok(())
}

fn push_decide(
    alloc: Global,
    out: &mut Vec<Token>,
    list: &Path,
    packet: &[Literal],
) -> Result<(), NoMemory>
    ensures { OnOk result (out.new.items
        ≡ out.old.items ++ specs.statement (kind.Decide list.now packet.now)) }
{
    push_word(out, Keyword::Decide)?;
    push_path(alloc, out, list)?;
    push_sign(out, Sign::Open)?;
    push_packet(alloc, out, packet)?;
    push_sign(out, Sign::Close)
}

fn push_generate(
    alloc: Global,
    out: &mut Vec<Token>,
    n: u64,
    seed: u64,
    name: &Text,
) -> Result<(), NoMemory>
    ensures { OnOk result (out.new.items
        ≡ out.old.items ++ specs.statement (kind.Generate n seed name.now)) }
{
    push_word(out, Keyword::Generate)?;
    push_number(alloc, out, n as u128)?;
    push_number(alloc, out, seed as u128)?;
    push_word(out, Keyword::As)?;
    push_name(alloc, out, name)
}

/// Adds the two interfaces that are linked, or between which paths go.
fn push_ends(
    alloc: Global,
    out: &mut Vec<Token>,
    from: &Text,
    from_interface: &Text,
    to: &Text,
    to_interface: &Text,
) -> Result<(), NoMemory>
    ensures { OnOk result (out.new.items ≡ out.old.items
        ++ specs.ends from.now from_interface.now to.now to_interface.now) }
{
    push_name(alloc, out, from)?;
    push_quoted(alloc, out, from_interface)?;
    push_word(out, Keyword::To)?;
    push_name(alloc, out, to)?;
    push_quoted(alloc, out, to_interface)
}

/// Adds a link, or a search for paths.
fn push_route(alloc: Global, out: &mut Vec<Token>, route: &Kind) -> Result<(), NoMemory>
    requires { is_route route.now ≡ true }
    ensures { OnOk result (out.new.items ≡ out.old.items ++ specs.statement route.now) }
{
    match route {
        Kind::Link {
            from,
            from_interface,
            to,
            to_interface,
        } => {
            push_word(out, Keyword::Link)?;
            push_ends(alloc, out, from, from_interface, to, to_interface)
        }
        Kind::Paths {
            from,
            from_interface,
            to,
            to_interface,
            within,
        } => {
            push_word(out, Keyword::Path)?;
            push_ends(alloc, out, from, from_interface, to, to_interface)?;
            push_word(out, Keyword::Within)?;
            push_number(alloc, out, *within as u128)
        }
        _ => unreachable!(),
    }
}

fn push_audit(alloc: Global, out: &mut Vec<Token>, list: &Path) -> Result<(), NoMemory>
    ensures { OnOk result (out.new.items ≡ out.old.items ++ specs.statement (kind.Audit list.now)) }
{
    push_word(out, Keyword::Audit)?;
    push_path(alloc, out, list)
}

fn push_field_test(alloc: Global, out: &mut Vec<Token>, test: &NamedTest) -> Result<(), NoMemory>
    ensures { OnOk result (out.new.items ≡ out.old.items ++ specs.field_test test.now) }
{
    match test {
        NamedTest::Masked {
            field,
            value,
            wildcard,
        } => {
            push_name(alloc, out, field)?;
            push_word(out, Keyword::In)?;
            push_literal(alloc, out, value)?;
            push_literal(alloc, out, wildcard)
        }
        NamedTest::Range { field, lo, hi } => {
            push_name(alloc, out, field)?;
            push_word(out, Keyword::In)?;
            push_range(alloc, out, lo, hi)
        }
    }
}

/// Adds the tests, with a comma between each two.
fn push_tests(alloc: Global, out: &mut Vec<Token>, tests: &[NamedTest]) -> Result<(), NoMemory>
    ensures { OnOk result (out.new.items
        ≡ out.old.items ++ specs.by_commas specs.field_test tests.now) }
{
    let [first, others @ ..] = tests else {
        return Ok(());
    };
    push_field_test(alloc, out, first)?;
    for test in others {
        push_sign(out, Sign::Comma)?;
        push_field_test(alloc, out, test)?;
    }
    Ok(())
}

fn push_core(
    alloc: Global,
    out: &mut Vec<Token>,
    list: &Path,
    verdict: &Text,
    tests: &[NamedTest],
) -> Result<(), NoMemory>
    ensures { OnOk result (out.new.items
        ≡ out.old.items ++ specs.statement (kind.Core list.now verdict.now tests.now)) }
{
    push_word(out, Keyword::Core)?;
    push_path(alloc, out, list)?;
    push_sign(out, Sign::Colon)?;
    push_name(alloc, out, verdict)?;
    push_word(out, Keyword::Where)?;
    push_tests(alloc, out, tests)
}

/// Adds a statement, but not its semicolon.
pub fn push_statement(alloc: Global, out: &mut Vec<Token>, what: &Kind) -> Result<(), NoMemory>
    ensures { OnOk result (out.new.items ≡ out.old.items ++ specs.statement what.now) }
{
    match what {
        Kind::LoadVocab(file) => push_load(alloc, out, Keyword::Vocab, file),
        Kind::LoadPolicy(file) => push_load(alloc, out, Keyword::Policy, file),
        Kind::LoadIos { file, name } => push_load_as(alloc, out, Keyword::Ios, file, name),
        Kind::LoadIptables { file, name } => {
            push_load_as(alloc, out, Keyword::Iptables, file, name)
        }
        Kind::Explore(question) => push_explore(alloc, out, question),
        Kind::IsPossible => push_possible(out),
        Kind::ShowOne => push_show(out, Keyword::One),
        Kind::ShowFirst(n) => push_show_first(alloc, out, *n),
        Kind::ShowAll => push_show(out, Keyword::All),
        Kind::ShowFull => push_show(out, Keyword::Full),
        Kind::ShowUpTo(n) => push_show_up_to(alloc, out, *n),
        Kind::ShowRealized => push_show(out, Keyword::Realized),
        Kind::ShowUnrealized => push_show(out, Keyword::Unrealized),
        Kind::ShowBounds => push_show(out, Keyword::Bounds),
        Kind::ShowProof => push_show(out, Keyword::Proof),
        Kind::Compare(left, right) => push_compare(alloc, out, left, right),
        Kind::Decide { list, packet } => push_decide(alloc, out, list, packet.as_slice()),
        Kind::Generate { n, seed, name } => push_generate(alloc, out, *n, *seed, name),
        Kind::Link { .. } => push_route(alloc, out, what),
        Kind::Paths { .. } => push_route(alloc, out, what),
        Kind::Audit(list) => push_audit(alloc, out, list),
        Kind::Core {
            list,
            verdict,
            tests,
        } => push_core(alloc, out, list, verdict, tests.as_slice()),
    }
}
