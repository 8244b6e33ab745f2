ghost use Rattle.std.specs.Prelude.{◌≡◌, ◌^◌, ◌<◌, ◌++◌, ◌∷◌, [], ℕ, List, IfOk, IfErr, OnOk};
ghost use Rattle.certificates.specs.Parts.Entries.{IsNumber};
ghost use Rattle.dimacs.specs.Words.{Placed, texts};
ghost use Rattle.dimacs.specs.Text.{head_words};
ghost use Rattle.dimacs.specs.Inside.Cursors.{MissesBy, Takes};
ghost use Rattle.dimacs.specs.Inside.Fronts.{IsFault, IsHeadOf};

use crate::fault::{DimacsFault, DimacsReason};
use crate::words::Words;
use certificates::number;

/// What a text says of its clauses.
#[derive(Clone, Copy)]
pub struct Head {
    /// How many variables there are.
    pub vars: usize,
    /// How many clauses there are.
    pub count: usize,
}

/// Takes a word that is to be this one.
fn take_word(words: &mut Words<'_>, expected: &[u8]) -> Result<(), DimacsFault>
    ensures taken { OnOk result (Takes (λ text. text ≡ expected.now) words.old words.new) }
    ensures missed { IfErr result (MissesBy (λ text. text ≡ expected.now) words.old) }
{
    match words.next() {
        Ok(word) if word.text == expected => Ok(()),
        Ok(word) => Err(DimacsFault::At {
            line: word.line,
            reason: DimacsReason::Syntax,
        }),
        Err(line) => Err(DimacsFault::At {
            line,
            reason: DimacsReason::Incomplete,
        }),
    }
}

/// Takes a word that is to be a number.
fn take_number(words: &mut Words<'_>) -> Result<usize, DimacsFault>
    ensures taken { IfOk result (λ n. Takes (λ text. IsNumber text n) words.old words.new) }
    ensures missed { IfErr result (MissesBy (λ text. (n : ℕ) × IsNumber text n) words.old) }
{
    let word = match words.next() {
        Ok(word) => word,
        Err(line) => {
            return Err(DimacsFault::At {
                line,
                reason: DimacsReason::Incomplete,
            });
        }
    };
    match number(word.text) {
        Some(n) => Ok(n as usize),
        None => Err(DimacsFault::At {
            line: word.line,
            reason: DimacsReason::Syntax,
        }),
    }
}

/// Takes the words of the head.
pub fn take_head(words: &mut Words<'_>) -> Result<Head, DimacsFault>
    ensures taken { IfOk result (λ head. IsHeadOf words.old words.new head.vars head.count) }
    ensures refused { IfErr result (IsFault [] words.old) }
{
    take_word(words, b"p")?;
    take_word(words, b"cnf")?;
    let vars = take_number(words)?;
    let count = take_number(words)?;
    Ok(Head { vars, count })
}
