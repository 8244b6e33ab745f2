ghost use Rattle.std.specs.Prelude.{IfOk};
ghost use Rattle.std.specs.String.{string_bytes};
ghost use Rattle.notes.specs.Reports.{EndsLine};

use crate::config_words::config_error;
use crate::outside::{Names, bytes_of};
use crate::reasons::meaning_of;
use crate::script_words::script_error;
use crate::statements::statement_error;
use mg_outside::Files;
use notes::{Place, Report, line_place, whole_file};
use session::Reason;
use std::alloc::{AllocError, Global};

/// Which line of which file was refused, and why.
#[derive(Clone, Copy)]
pub(crate) struct Refusal<'a> {
    pub(crate) file: &'a str,
    pub(crate) line: u64,
    pub(crate) reason: &'a Reason,
}

/// The longest file in which the word that is meant is looked for, since fronts of it are read for that.
const MOST_BYTES: usize = 262_144;

/// What judged the text that was refused.
#[derive(Clone, Copy, Debug, PartialEq, Eq)]
enum Judge {
    /// The reader of scripts, before any statement.
    Script,
    /// A statement when its turn came.
    Statement,
    /// The reader of configurations.
    Configuration,
    /// The length of the file.
    Length,
}

fn judge_of(refused: &Refusal<'_>, script: &str) -> Judge {
    match refused.reason {
        Reason::Syntax | Reason::Depth | Reason::NoExplore => Judge::Script,
        Reason::TooLong { .. } => Judge::Length,
        Reason::NotBuilt
        | Reason::Duplicate
        | Reason::UnknownPolicy
        | Reason::OutOfRange
        | Reason::Arity => Judge::Statement,
        Reason::UnknownName if refused.file == script => Judge::Statement,
        _ => Judge::Configuration,
    }
}

/// Why a text is refused.
pub(crate) fn refused_text<F: Files, N: Names>(
    alloc: Global,
    words: &[String],
    refused: &Refusal<'_>,
    files: &mut F,
    names: &N,
    report: Report,
) -> Result<String, AllocError>
    ensures { IfOk result (λ text. EndsLine (string_bytes text)) }
{
    let script = match words {
        [script] => script.as_str(),
        _ => "",
    };
    let judge = judge_of(refused, script);
    let Some(bytes) = bytes_of(alloc, files, names, refused.file)? else {
        return plain_error(refused, &whole_file(refused.file), report);
    };
    let bytes = bytes.as_slice();
    let line = line_place(refused.file, bytes, refused.line);
    match judge {
        Judge::Statement => statement_error(alloc, refused, bytes, files, names, report),
        Judge::Script if bytes.len() <= MOST_BYTES => {
            script_error(alloc, refused, bytes, &line, report)
        }
        Judge::Configuration if bytes.len() <= MOST_BYTES => {
            config_error(alloc, refused, bytes, &line, report)
        }
        _ => plain_error(refused, &line, report),
    }
}

/// What the reason means, at this place.
pub(crate) fn plain_error(
    refused: &Refusal<'_>,
    place: &Place<'_>,
    report: Report,
) -> Result<String, AllocError>
    ensures { IfOk result (λ text. EndsLine (string_bytes text)) }
{
    let meaning = meaning_of(refused.reason);
    report.error(meaning.title, place, meaning.help)
}
