ghost use Rattle.std.specs.Prelude.{IfOk};
ghost use Rattle.std.specs.String.{string_bytes};
ghost use Rattle.notes.specs.Reports.{EndsLine};

use crate::outside::{Names, Standing, bytes_of};
use mg_outside::Files;
use notes::{Report, found, whole_file};
use std::alloc::{AllocError, Global};

/// Words that are not one name of a script.
pub(crate) fn bad_words(words: &[String], report: Report) -> Result<String, AllocError>
    ensures { IfOk result (λ text. EndsLine (string_bytes text)) }
{
    let title = match words {
        [] => "no script is named, or a word is no UTF-8 text",
        [_] => "a word that begins with a dash would be an option, and there are none",
        _ => "there is more than one word, and one script is read",
    };
    report.error(
        title,
        &whole_file(""),
        "write `./margrave SCRIPT`, where SCRIPT is a file of statements; a blank in its name stands in quotes",
    )
}

/// Standard output that refused a write.
pub(crate) fn write_fault(report: Report) -> Result<String, AllocError>
    ensures { IfOk result (λ text. EndsLine (string_bytes text)) }
{
    report.error(
        "standard output did not take the text, which is cut",
        &whole_file(""),
        "where it goes to a file, the disk may be full; where another program reads it, that one has ended too early",
    )
}

/// Memory that is wanting.
pub(crate) fn no_memory(report: Report) -> Result<String, AllocError>
    ensures { IfOk result (λ text. EndsLine (string_bytes text)) }
{
    report.error(
        "memory ran out, and the text is cut",
        &whole_file(""),
        "raise the limit (`ulimit -v`), end other programs, or ask about shorter lists",
    )
}

/// A file that could not be read. The place is the script's word that names it, where there is one.
pub(crate) fn read_fault<F: Files, N: Names>(
    alloc: Global,
    words: &[String],
    file: &str,
    files: &mut F,
    names: &N,
    report: Report,
) -> Result<String, AllocError>
    ensures { IfOk result (λ text. EndsLine (string_bytes text)) }
{
    let (title, help) = match names.standing(file) {
        Standing::Nothing => (
            "there is no file of this name",
            "names count from the folder that you are in, also those behind LOAD IOS",
        ),
        Standing::Folder => ("this is a folder", "name a file in it"),
        Standing::File | Standing::Other => (
            "the system did not let this file be read",
            "look at who may read it (`ls -l`), and at the disk",
        ),
    };
    let script = match words {
        [script] if script.as_str() != file => script.as_str(),
        _ => return report.error(title, &whole_file(file), help),
    };
    let Some(bytes) = bytes_of(alloc, files, names, script)? else {
        return report.error(title, &whole_file(file), help);
    };
    let named = format!(in alloc; "\"{file}\"")?;
    match found(script, bytes.as_slice(), 1, named.as_bytes()) {
        Some(place) => report.error(title, &place, help),
        None => report.error(title, &whole_file(file), help),
    }
}
