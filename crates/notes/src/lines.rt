use crate::doubts::{Doubt, doubt_of};
use crate::place::{Place, line_place, whole_file};
use crate::report::Report;
use crate::words::{Cut, begins_marked, words_of};
use ios_config::Router;
use ios_lex::{LexFault, Line, lines};
use query_tokens::last_line;
use std::alloc::{AllocError, Global};

/// Adds a note for what of a configuration is read, or ignored, and probably not meant. The router is the one that it
/// makes.
pub fn config_notes(
    alloc: Global,
    file: &str,
    bytes: &[u8],
    router: &Router,
    report: &mut Report,
) -> Result<(), AllocError> {
    if begins_marked(bytes) {
        mark_note(file, bytes, report)?;
    }
    if bytes.ends_with(b"\r") {
        return_note(file, bytes, report)?;
    }
    match lines(alloc, bytes) {
        Ok(lines) => {
            line_notes(alloc, file, bytes, lines.as_slice(), report)?;
            empty_note(file, lines.is_empty(), router, report)
        }
        Err(LexFault::NoMemory) => Err(AllocError),
        Err(LexFault::Unclosed { .. }) => Ok(()),
    }
}

/// A byte-order mark is a part of the first word, so that the first line is ignored.
fn mark_note(file: &str, bytes: &[u8], report: &mut Report) -> Result<(), AllocError> {
    report.note(
        "the file begins with a byte-order mark, so its first line is ignored",
        &line_place(file, bytes, 1),
        "save it as UTF-8 without a byte-order mark",
    )
}

/// A carriage return belongs to the last word where no line feed stands behind it.
fn return_note(file: &str, bytes: &[u8], report: &mut Report) -> Result<(), AllocError> {
    report.note(
        "the last line ends with a carriage return and no line feed",
        &line_place(file, bytes, last_line(bytes)),
        "the carriage return is taken for a part of the last word: end the line, or save the file with other line ends",
    )
}

/// A file that gave no list.
fn empty_note(
    file: &str,
    is_empty: bool,
    router: &Router,
    report: &mut Report,
) -> Result<(), AllocError> {
    if is_empty {
        return report.note(
            "the configuration has no lines but comments",
            &whole_file(file),
            "name the file with the text of `show running-config`",
        );
    }
    if router.lists.iter().any(|list| list.is_defined()) {
        return Ok(());
    }
    report.note(
        "the configuration has no access list with an entry",
        &whole_file(file),
        "entries are lines `access-list N permit ...`, or stand indented under `ip access-list`",
    )
}

/// Adds a note for each line of which something is probably not meant.
fn line_notes(
    alloc: Global,
    file: &str,
    bytes: &[u8],
    lines: &[Line],
    report: &mut Report,
) -> Result<(), AllocError> {
    let mut in_list = false;
    for line in lines {
        if !line.indented {
            in_list = opens_list(line);
        }
        if !line.banner {
            line_note(alloc, file, bytes, line, in_list && line.indented, report)?;
        }
    }
    Ok(())
}

/// Whether the line opens the block of a list.
fn opens_list(line: &Line) -> bool {
    match line.words.as_slice() {
        [first, second, ..] => !line.banner && first.is("ip") && second.is("access-list"),
        _ => false,
    }
}

fn line_note(
    alloc: Global,
    file: &str,
    bytes: &[u8],
    line: &Line,
    in_list: bool,
    report: &mut Report,
) -> Result<(), AllocError> {
    let Some(doubt) = doubt_of(alloc, line, in_list)? else {
        return Ok(());
    };
    // A place costs a walk through the file.
    let place = if report.has_room() {
        doubt_place(alloc, line_place(file, bytes, line.number), doubt)?
    } else {
        whole_file(file)
    };
    let help = doubt.help(alloc)?;
    report.note(doubt.title(), &place, help.as_str())
}

/// The line with the word that is meant.
fn doubt_place<'a>(alloc: Global, line: Place<'a>, doubt: Doubt) -> Result<Place<'a>, AllocError> {
    let words = words_of(alloc, line, Cut::Blanks)?;
    Ok(*words.get(doubt.at()).unwrap_or(&line))
}
