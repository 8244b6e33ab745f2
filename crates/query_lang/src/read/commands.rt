ghost use Rattle.std.specs.Prelude.{◌≡◌, ℕ, List, ◌+◌, ◌<◌, ◌≤◌, ◌*◌, IfOk, IfErr, length, drop, [], ◌∷◌};
ghost use Rattle.query_lang.specs.Machine.Due.{Due, State};
ghost use Rattle.query_lang.specs.Machine.Going.{Found, Stopped, IsLater, IsNoEarlier, StartsAt};
ghost use Rattle.query_tokens.specs.declared.token.Token.TheVariants as token;
ghost use Rattle.query_lang.specs.Machine.Steps as steps;
ghost use Rattle.query_lang.specs.Statements as specs;
ghost use Rattle.query_lang.specs.Machine.Tests.{asked};

use crate::literal::{Literal, NamedTest};
use crate::read::ahead::{any_word, name, number_between, past_sign, quoted, sign, word};
use crate::read::literals::{Asked, literal, number_test};
use crate::read::paths::path;
use crate::read::stop::Stop;
use crate::script::{Kind, ScriptReason};
use query_tokens::{Keyword, Placed, Sign};
use sorted_logic::Text;
use sqlite_items::Items;
use std::alloc::Global;

/// A file and the name that it is loaded as.
#[tactic(auto, using(crate::proofs::Commands::file_read, crate::proofs::Commands::file_stops0, crate::proofs::Commands::file_stops1, crate::proofs::Commands::file_stops2))]
fn named_file(alloc: Global, tokens: &[Placed], at: usize) -> Result<((Text, Text), usize), Stop>
    ensures read { IfOk result (Found (List ℕ × List ℕ) steps.file_and_name tokens.now at) }
    ensures next { IfOk result (IsLater tokens.now at) }
    ensures refused { IfErr result (Stopped (List ℕ × List ℕ) steps.file_and_name tokens.now at) }
{
    let (file, next) = quoted(alloc, tokens, at)?;
    let next = word(tokens, next, Keyword::As)?;
    let (text, end) = name(alloc, tokens, next)?;
    Ok(((file, text), end))
}

/// What is loaded, by the word behind LOAD.
#[tactic(auto, using(crate::proofs::Commands::vocab_read, crate::proofs::Commands::vocab_stops0, crate::proofs::Commands::policy_read, crate::proofs::Commands::policy_stops0, crate::proofs::Commands::ios_read, crate::proofs::Commands::ios_stops0, crate::proofs::Commands::iptables_read, crate::proofs::Commands::iptables_stops0, crate::proofs::Commands::no_load))]
fn load_word(
    alloc: Global,
    tokens: &[Placed],
    at: usize,
    behind: usize,
    word: Keyword,
) -> Result<(Kind, usize), Stop>
    requires starts { StartsAt (token.Keyword word) tokens.now at behind }
    requires next { at < behind }
    requires within { behind ≤ length tokens.now }
    ensures read { IfOk result (Found Kind (State.want Due.load) tokens.now at) }
    ensures next { IfOk result (IsLater tokens.now at) }
    ensures refused { IfErr result (Stopped Kind (State.want Due.load) tokens.now at) }
{
    match word {
        Keyword::Vocab => {
            let (file, end) = quoted(alloc, tokens, behind)?;
            Ok((Kind::LoadVocab(file), end))
        }
        Keyword::Policy => {
            let (file, end) = quoted(alloc, tokens, behind)?;
            Ok((Kind::LoadPolicy(file), end))
        }
        Keyword::Ios => {
            let ((file, name), end) = named_file(alloc, tokens, behind)?;
            Ok((Kind::LoadIos { file, name }, end))
        }
        Keyword::Iptables => {
            let ((file, name), end) = named_file(alloc, tokens, behind)?;
            Ok((Kind::LoadIptables { file, name }, end))
        }
        _ => Err(Stop::Refused(at, ScriptReason::Syntax)),
    }
}

/// Behind LOAD.
#[tactic(auto, using(crate::proofs::Commands::load_none))]
pub fn load(alloc: Global, tokens: &[Placed], at: usize) -> Result<(Kind, usize), Stop>
    ensures read { IfOk result (Found Kind (State.want Due.load) tokens.now at) }
    ensures next { IfOk result (IsLater tokens.now at) }
    ensures refused { IfErr result (Stopped Kind (State.want Due.load) tokens.now at) }
{
    match any_word(tokens, at) {
        Some((word, behind)) => load_word(alloc, tokens, at, behind, word),
        None => Err(Stop::Refused(at, ScriptReason::Syntax)),
    }
}

/// What is shown, by the word behind SHOW.
#[tactic(auto, using(crate::proofs::Commands::one_read, crate::proofs::Commands::all_read, crate::proofs::Commands::full_read, crate::proofs::Commands::realized_read, crate::proofs::Commands::unrealized_read, crate::proofs::Commands::bounds_read, crate::proofs::Commands::proof_read, crate::proofs::Commands::first_read, crate::proofs::Commands::first_stops0, crate::proofs::Commands::up_read, crate::proofs::Commands::up_stops0, crate::proofs::Commands::up_stops1, crate::proofs::Commands::no_show))]
fn show_word(
    tokens: &[Placed],
    at: usize,
    behind: usize,
    word: Keyword,
) -> Result<(Kind, usize), Stop>
    requires starts { StartsAt (token.Keyword word) tokens.now at behind }
    requires next { at < behind }
    requires within { behind ≤ length tokens.now }
    ensures read { IfOk result (Found Kind (State.want Due.show) tokens.now at) }
    ensures next { IfOk result (IsLater tokens.now at) }
    ensures refused { IfErr result (Stopped Kind (State.want Due.show) tokens.now at) }
{
    match word {
        Keyword::One => Ok((Kind::ShowOne, behind)),
        Keyword::All => Ok((Kind::ShowAll, behind)),
        Keyword::Full => Ok((Kind::ShowFull, behind)),
        Keyword::Realized => Ok((Kind::ShowRealized, behind)),
        Keyword::Unrealized => Ok((Kind::ShowUnrealized, behind)),
        Keyword::Bounds => Ok((Kind::ShowBounds, behind)),
        Keyword::Proof => Ok((Kind::ShowProof, behind)),
        Keyword::First => {
            let (n, end) = number_between(tokens, behind, 1, 1_000_000)?;
            Ok((Kind::ShowFirst(n), end))
        }
        Keyword::Up => {
            let next = crate::read::ahead::word(tokens, behind, Keyword::To)?;
            let (n, end) = number_between(tokens, next, 1, 100)?;
            Ok((Kind::ShowUpTo(n), end))
        }
        _ => Err(Stop::Refused(at, ScriptReason::Syntax)),
    }
}

/// Behind SHOW.
#[tactic(auto, using(crate::proofs::Commands::show_none))]
pub fn show(tokens: &[Placed], at: usize) -> Result<(Kind, usize), Stop>
    ensures read { IfOk result (Found Kind (State.want Due.show) tokens.now at) }
    ensures next { IfOk result (IsLater tokens.now at) }
    ensures refused { IfErr result (Stopped Kind (State.want Due.show) tokens.now at) }
{
    match any_word(tokens, at) {
        Some((word, behind)) => show_word(tokens, at, behind, word),
        None => Err(Stop::Refused(at, ScriptReason::Syntax)),
    }
}

/// Behind IS.
#[tactic(auto, using(crate::proofs::Commands::possible_read, crate::proofs::Commands::possible_stops0, crate::proofs::Commands::possible_stops1))]
pub fn possible(tokens: &[Placed], at: usize) -> Result<(Kind, usize), Stop>
    ensures read { IfOk result (Found Kind steps.possible tokens.now at) }
    ensures next { IfOk result (IsLater tokens.now at) }
    ensures refused { IfErr result (Stopped Kind steps.possible tokens.now at) }
{
    let next = word(tokens, at, Keyword::Possible)?;
    let end = sign(tokens, next, Sign::Question)?;
    Ok((Kind::IsPossible, end))
}

/// Behind COMPARE.
#[tactic(auto, using(crate::proofs::Commands::compare_read, crate::proofs::Commands::compare_stops0, crate::proofs::Commands::compare_stops1))]
pub fn compare(alloc: Global, tokens: &[Placed], at: usize) -> Result<(Kind, usize), Stop>
    ensures read { IfOk result (Found Kind steps.compare tokens.now at) }
    ensures next { IfOk result (IsLater tokens.now at) }
    ensures refused { IfErr result (Stopped Kind steps.compare tokens.now at) }
{
    let (left, next) = path(alloc, tokens, at)?;
    let (right, end) = path(alloc, tokens, next)?;
    Ok((Kind::Compare(left, right), end))
}

/// The literals behind the first, and the closing parenthesis.
#[tactic(auto, using(crate::proofs::Commands::literals_begin, crate::proofs::Commands::literals_more, crate::proofs::Commands::literals_stop0, crate::proofs::Commands::literals_end, crate::proofs::Commands::literals_unended))]
fn more_literals(
    alloc: Global,
    tokens: &[Placed],
    at: usize,
    first: Literal,
) -> Result<(Items<Literal>, usize), Stop>
    requires { at ≤ length tokens.now }
    ensures read { IfOk result
        (Found (List Literal) (State.want (Due.more_literals (first ∷ []))) tokens.now at) }
    ensures next { IfOk result (IsLater tokens.now at) }
    ensures refused { IfErr result
        (Stopped (List Literal) (State.want (Due.more_literals (first ∷ []))) tokens.now at) }
{
    let mut parts = Items::new(alloc);
    parts.push(first)?;
    let mut place = at;
    while let Some(behind) = past_sign(tokens, place, Sign::Comma) {
        let (part, next) = literal(alloc, tokens, behind)?;
        parts.push(part)?;
        place = next;
    }
    let end = sign(tokens, place, Sign::Close)?;
    Ok((parts, end))
}

/// Behind DECIDE.
#[tactic(auto, using(crate::proofs::Commands::decide_stops0, crate::proofs::Commands::decide_stops1, crate::proofs::Commands::decide_stops2, crate::proofs::Commands::decide_stops3, crate::proofs::Commands::decide_read))]
pub fn decide(alloc: Global, tokens: &[Placed], at: usize) -> Result<(Kind, usize), Stop>
    ensures read { IfOk result (Found Kind steps.decide tokens.now at) }
    ensures next { IfOk result (IsLater tokens.now at) }
    ensures refused { IfErr result (Stopped Kind steps.decide tokens.now at) }
{
    let (list, next) = path(alloc, tokens, at)?;
    let next = sign(tokens, next, Sign::Open)?;
    let (first, next) = literal(alloc, tokens, next)?;
    let (packet, end) = more_literals(alloc, tokens, next, first)?;
    Ok((Kind::Decide { list, packet }, end))
}

/// Behind GENERATE.
#[tactic(auto, using(crate::proofs::Commands::generate_stops0, crate::proofs::Commands::generate_stops1, crate::proofs::Commands::generate_stops2, crate::proofs::Commands::generate_stops3, crate::proofs::Commands::generate_read))]
pub fn generate(alloc: Global, tokens: &[Placed], at: usize) -> Result<(Kind, usize), Stop>
    ensures read { IfOk result (Found Kind steps.generate tokens.now at) }
    ensures next { IfOk result (IsLater tokens.now at) }
    ensures refused { IfErr result (Stopped Kind steps.generate tokens.now at) }
{
    let (n, next) = number_between(tokens, at, 1, 5_000)?;
    let (seed, next) = number_between(tokens, next, 0, 2_147_483_647)?;
    let next = word(tokens, next, Keyword::As)?;
    let (text, end) = name(alloc, tokens, next)?;
    Ok((
        Kind::Generate {
            n,
            seed,
            name: text,
        },
        end,
    ))
}

/// A router and one of its interfaces.
#[tactic(auto, using(crate::proofs::Commands::end_read, crate::proofs::Commands::end_stops0, crate::proofs::Commands::end_stops1))]
fn interface(alloc: Global, tokens: &[Placed], at: usize) -> Result<((Text, Text), usize), Stop>
    ensures read { IfOk result (Found (List ℕ × List ℕ) steps.interface tokens.now at) }
    ensures next { IfOk result (IsLater tokens.now at) }
    ensures refused { IfErr result (Stopped (List ℕ × List ℕ) steps.interface tokens.now at) }
{
    let (router, next) = name(alloc, tokens, at)?;
    let (interface, end) = quoted(alloc, tokens, next)?;
    Ok(((router, interface), end))
}

/// Two of them, the second behind TO.
#[tactic(auto, using(crate::proofs::Commands::ends_read, crate::proofs::Commands::ends_stops0, crate::proofs::Commands::ends_stops1, crate::proofs::Commands::ends_stops2))]
fn two_ends(
    alloc: Global,
    tokens: &[Placed],
    at: usize,
) -> Result<(((Text, Text), (Text, Text)), usize), Stop>
    ensures read { IfOk result
        (Found ((List ℕ × List ℕ) × (List ℕ × List ℕ)) steps.both_ends tokens.now at) }
    ensures next { IfOk result (IsLater tokens.now at) }
    ensures refused { IfErr result
        (Stopped ((List ℕ × List ℕ) × (List ℕ × List ℕ)) steps.both_ends tokens.now at) }
{
    let (from, next) = interface(alloc, tokens, at)?;
    let next = word(tokens, next, Keyword::To)?;
    let (to, end) = interface(alloc, tokens, next)?;
    Ok(((from, to), end))
}

/// Behind LINK.
#[tactic(auto, using(crate::proofs::Commands::link_read, crate::proofs::Commands::link_stops0))]
pub fn link(alloc: Global, tokens: &[Placed], at: usize) -> Result<(Kind, usize), Stop>
    ensures read { IfOk result (Found Kind steps.link tokens.now at) }
    ensures next { IfOk result (IsLater tokens.now at) }
    ensures refused { IfErr result (Stopped Kind steps.link tokens.now at) }
{
    let (((from, from_interface), (to, to_interface)), end) = two_ends(alloc, tokens, at)?;
    let kind = Kind::Link {
        from,
        from_interface,
        to,
        to_interface,
    };
    Ok((kind, end))
}

/// Behind PATH.
#[tactic(auto, using(crate::proofs::Commands::paths_read, crate::proofs::Commands::paths_stops0, crate::proofs::Commands::paths_stops1, crate::proofs::Commands::paths_stops2))]
pub fn paths(alloc: Global, tokens: &[Placed], at: usize) -> Result<(Kind, usize), Stop>
    ensures read { IfOk result (Found Kind steps.paths tokens.now at) }
    ensures next { IfOk result (IsLater tokens.now at) }
    ensures refused { IfErr result (Stopped Kind steps.paths tokens.now at) }
{
    let (((from, from_interface), (to, to_interface)), next) = two_ends(alloc, tokens, at)?;
    let next = word(tokens, next, Keyword::Within)?;
    let (within, end) = number_between(tokens, next, 1, 8)?;
    let kind = Kind::Paths {
        from,
        from_interface,
        to,
        to_interface,
        within,
    };
    Ok((kind, end))
}

/// Behind AUDIT.
#[tactic(auto, using(crate::proofs::Commands::audit_read, crate::proofs::Commands::audit_stops0))]
pub fn audit(alloc: Global, tokens: &[Placed], at: usize) -> Result<(Kind, usize), Stop>
    ensures read { IfOk result (Found Kind steps.audit tokens.now at) }
    ensures next { IfOk result (IsLater tokens.now at) }
    ensures refused { IfErr result (Stopped Kind steps.audit tokens.now at) }
{
    let (list, end) = path(alloc, tokens, at)?;
    Ok((Kind::Audit(list), end))
}

/// A field that is asked a number test.
fn field_tested(field: Text, test: Asked) -> NamedTest
    ensures { result ≡ specs.field_tested field (asked test) }
{
    match test {
        Asked::Masked(value, wildcard) => NamedTest::Masked {
            field,
            value,
            wildcard,
        },
        Asked::Range(lo, hi) => NamedTest::Range { field, lo, hi },
    }
}

/// A test of a field.
#[tactic(auto, using(crate::proofs::Commands::field_stops0, crate::proofs::Commands::field_stops1, crate::proofs::Commands::field_stops2, crate::proofs::Commands::field_read))]
fn field_test(alloc: Global, tokens: &[Placed], at: usize) -> Result<(NamedTest, usize), Stop>
    ensures read { IfOk result (Found NamedTest steps.field_test tokens.now at) }
    ensures next { IfOk result (IsLater tokens.now at) }
    ensures refused { IfErr result (Stopped NamedTest steps.field_test tokens.now at) }
{
    let (field, next) = name(alloc, tokens, at)?;
    let next = word(tokens, next, Keyword::In)?;
    let (test, end) = number_test(alloc, tokens, next)?;
    Ok((field_tested(field, test), end))
}

/// The tests behind the first.
#[tactic(auto, using(crate::proofs::Commands::tests_begin, crate::proofs::Commands::tests_more, crate::proofs::Commands::tests_stop0, crate::proofs::Commands::tests_done))]
fn more_tests(
    alloc: Global,
    tokens: &[Placed],
    at: usize,
    first: NamedTest,
) -> Result<(Items<NamedTest>, usize), Stop>
    requires { at ≤ length tokens.now }
    ensures read { IfOk result
        (Found (List NamedTest) (State.want (Due.more_tests (first ∷ []))) tokens.now at) }
    ensures next { IfOk result (IsNoEarlier tokens.now at) }
    ensures refused { IfErr result
        (Stopped (List NamedTest) (State.want (Due.more_tests (first ∷ []))) tokens.now at) }
{
    let mut parts = Items::new(alloc);
    parts.push(first)?;
    let mut place = at;
    while let Some(behind) = past_sign(tokens, place, Sign::Comma) {
        let (part, next) = field_test(alloc, tokens, behind)?;
        parts.push(part)?;
        place = next;
    }
    Ok((parts, place))
}

/// Behind CORE.
#[tactic(auto, using(crate::proofs::Commands::core_stops0, crate::proofs::Commands::core_stops1, crate::proofs::Commands::core_stops2, crate::proofs::Commands::core_stops3, crate::proofs::Commands::core_stops4, crate::proofs::Commands::core_stops5, crate::proofs::Commands::core_read))]
pub fn core(alloc: Global, tokens: &[Placed], at: usize) -> Result<(Kind, usize), Stop>
    ensures read { IfOk result (Found Kind steps.core tokens.now at) }
    ensures next { IfOk result (IsLater tokens.now at) }
    ensures refused { IfErr result (Stopped Kind steps.core tokens.now at) }
{
    let (list, next) = path(alloc, tokens, at)?;
    let next = sign(tokens, next, Sign::Colon)?;
    let (verdict, next) = name(alloc, tokens, next)?;
    let next = word(tokens, next, Keyword::Where)?;
    let (first, next) = field_test(alloc, tokens, next)?;
    let (tests, end) = more_tests(alloc, tokens, next, first)?;
    let kind = Kind::Core {
        list,
        verdict,
        tests,
    };
    Ok((kind, end))
}
