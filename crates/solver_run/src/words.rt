ghost use Rattle.std.specs.Prelude.{◌≡◌, ◌∷◌, [], ℕ, List, codes, drop, map, IfSome, IfNone};
ghost use Rattle.std.specs.String.{string_bytes};
ghost use Rattle.frame.specs.declared.comparison.Comparison.{Comparison as AnyComparison};
ghost use Rattle.solver_run.specs.Tasks.{IsForm, Task, asked_word, task_of};

use certificates::number;
use frame::Comparison;

/// What the words of the command line ask for.
#[derive(Clone, Copy, Drop)]
pub enum Command<'a> {
    /// The least model of the clauses in this file.
    Solve(&'a str),
    /// The same, and where there is none the certificate, in the second file.
    Certify(&'a str, &'a str),
    /// Whether the certificate in the second file is right for the clauses in the first.
    Check(&'a str, &'a str),
    /// A packet that the lists in two files decide so, or that there is none.
    Compare(Comparison, &'a str, &'a str),
    /// How many nodes a circuit of so many gates has.
    Gates(u64),
}

/// The words behind the program's name, which is the first.
pub fn behind_name(words: &[String]) -> &[String]
    ensures { result.now ≡ drop 1 words.now }
{
    match words {
        [_, rest @ ..] => rest,
        [] => words,
    }
}

/// The command of two words.
fn of_two<'a>(verb: &'a str, word: &'a str) -> Option<Command<'a>>
    ensures form { IfSome result
        (λ command. IsForm (verb.now ∷ word.now ∷ []) (task_of command)) }
    ensures none { IfNone result ((task : Task) → IsForm (verb.now ∷ word.now ∷ []) task → ⊥) }
{
    if verb == "solve" {
        return Some(Command::Solve(word));
    }
    if verb == "gates" {
        let count = number(word.as_bytes())?;
        return Some(Command::Gates(count));
    }
    None
}

/// The command of three words.
fn of_three<'a>(verb: &'a str, file: &'a str, certificate: &'a str) -> Option<Command<'a>>
    ensures form { IfSome result (λ command.
        IsForm (verb.now ∷ file.now ∷ certificate.now ∷ []) (task_of command)) }
    ensures none { IfNone result
        ((task : Task) → IsForm (verb.now ∷ file.now ∷ certificate.now ∷ []) task → ⊥) }
{
    if verb == "check" {
        return Some(Command::Check(file, certificate));
    }
    None
}

/// What a word asks of two lists.
fn comparison(word: &str) -> Option<Comparison>
    ensures asked { IfSome result (λ asked. word.now ≡ asked_word asked) }
    ensures none { IfNone result ((asked : AnyComparison) → word.now ≡ asked_word asked → ⊥) }
{
    if word == "differ" {
        return Some(Comparison::Differs);
    }
    if word == "widen" {
        return Some(Comparison::Widens);
    }
    None
}

/// The command of a search whose option is this word.
fn with_option<'a>(file: &'a str, option: &'a str, out: &'a str) -> Option<Command<'a>>
    ensures form { IfSome result (λ command.
        IsForm (codes "solve" ∷ file.now ∷ option.now ∷ out.now ∷ []) (task_of command)) }
    ensures none { IfNone result ((task : Task)
        → IsForm (codes "solve" ∷ file.now ∷ option.now ∷ out.now ∷ []) task → ⊥) }
{
    if option != "--certificate" {
        return None;
    }
    Some(Command::Certify(file, out))
}

/// The command that asks this of the lists in two files.
fn of_lists<'a>(word: &'a str, first: &'a str, second: &'a str) -> Option<Command<'a>>
    ensures form { IfSome result (λ command.
        IsForm (codes "lists" ∷ word.now ∷ first.now ∷ second.now ∷ []) (task_of command)) }
    ensures none { IfNone result ((task : Task)
        → IsForm (codes "lists" ∷ word.now ∷ first.now ∷ second.now ∷ []) task → ⊥) }
{
    let asked = comparison(word)?;
    Some(Command::Compare(asked, first, second))
}

/// The command of four words.
fn of_four<'a>(verb: &'a str, next: &'a str, third: &'a str, last: &'a str) -> Option<Command<'a>>
    ensures form { IfSome result (λ command.
        IsForm (verb.now ∷ next.now ∷ third.now ∷ last.now ∷ []) (task_of command)) }
    ensures none { IfNone result
        ((task : Task) → IsForm (verb.now ∷ next.now ∷ third.now ∷ last.now ∷ []) task → ⊥) }
{
    if verb == "solve" {
        return with_option(next, third, last);
    }
    if verb == "lists" {
        return of_lists(next, third, last);
    }
    None
}

/// The command that the words ask for.
pub fn command_of(words: &[String]) -> Option<Command<'_>>
    ensures form { IfSome result
        (λ command. IsForm (map string_bytes words.now) (task_of command)) }
    ensures none { IfNone result
        ((task : Task) → IsForm (map string_bytes words.now) task → ⊥) }
{
    match words {
        [verb, word] => of_two(verb.as_str(), word.as_str()),
        [verb, file, certificate] => {
            of_three(verb.as_str(), file.as_str(), certificate.as_str())
        }
        [verb, next, third, last] => {
            of_four(verb.as_str(), next.as_str(), third.as_str(), last.as_str())
        }
        _ => None,
    }
}
