ghost use Rattle.std.specs.Prelude.{◌≡◌, ◌++◌, OnOk};
ghost use Rattle.std.specs.List.{flat_map};
ghost use Rattle.list_questions.specs.Mentions.{mentions};

use crate::NoMemory;
use query_lang::{Named, Path};
use sorted_logic::Text;
use std::marker::Model;

/// A policy, or a rule of it, and the word behind its path, as a formula asks what it decides.
#[derive(Debug, Drop)]
pub struct Mention<'a> {
    pub path: &'a Path,
    pub word: &'a Text,
}

impl<'a> Model for Mention<'a> {
    ghost use Rattle.list_questions.specs.Mentions.{PolicyAtom};

    ghost Value = { PolicyAtom };

    ghost view = { λ mention. record { path = mention.path.now; word = mention.word.now } };
}

/// Adds what the formula asks of policies, from the left. After an `Err` a front of it may have been added.
#[cycle(mentions)]
#[tactic(auto, using(crate::proofs::MentionEquations::mention_rules))]
pub fn push_mentions<'a>(formula: &'a Named, all: &mut Vec<Mention<'a>>) -> Result<(), NoMemory>
    ensures { OnOk result (all.new.items ≡ all.old.items ++ mentions formula.now) }
{
    match formula {
        Named::Not(body) => push_mentions(body.get(), all),
        Named::And(parts) => push_all(parts.as_slice(), all),
        Named::Or(parts) => push_all(parts.as_slice(), all),
        Named::Iff(parts) => push_all(parts.as_slice(), all),
        Named::Implies(left, right) => {
            push_mentions(left.get(), all)?;
            push_mentions(right.get(), all)
        }
        Named::Forall {
            name: _,
            sort: _,
            body,
        } => push_mentions(body.get(), all),
        Named::Exists {
            name: _,
            sort: _,
            body,
        } => push_mentions(body.get(), all),
        Named::AtPath {
            path,
            word,
            args: _,
        } => {
            all.push(Mention { path, word })?;
            Ok(())
        }
        Named::True | Named::False => Ok(()),
        Named::Equal(_, _) | Named::Masked(_, _, _) | Named::Range(_, _, _) => Ok(()),
        Named::Holds { name: _, args: _ } => Ok(()),
    }
}

/// The same for each of the formulas.
#[cycle(mentions)]
fn push_all<'a>(formulas: &'a [Named], all: &mut Vec<Mention<'a>>) -> Result<(), NoMemory>
    ensures { OnOk result (all.new.items ≡ all.old.items ++ flat_map mentions formulas.now) }
{
    for formula in formulas {
        push_mentions(formula, all)?;
    }
    Ok(())
}
