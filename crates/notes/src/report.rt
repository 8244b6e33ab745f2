ghost use Rattle.std.specs.Prelude.{◌≤◌, length, OnOk, IfOk};
ghost use Rattle.std.specs.String.{string_bytes};
ghost use Rattle.notes.specs.Reports.{EndsLine};

use crate::place::Place;
use crate::printed::{Printed, Times};
use std::alloc::{AllocError, Global};

/// The most notes that are written.
const MOST_NOTES: u64 = 20;

/// How many bytes of a line are shown before the word that is meant, and from it on.
const BEFORE: usize = 60;

const FROM: usize = 140;

/// Texts for people, one behind the other.
#[derive(Drop)]
pub struct Report {
    text: String,
    /// How many notes there were, written or not.
    notes: u64,
}

impl Report {
    pub fn new(alloc: Global) -> Report {
        Report {
            text: String::new(alloc),
            notes: 0,
        }
    }

    /// Whether another note would be written.
    pub fn has_room(&self) -> bool {
        self.notes < MOST_NOTES
    }

    /// Counts a note, and writes it where there is room: what is said, of which place, and what to do.
    pub fn note(&mut self, title: &str, place: &Place<'_>, help: &str) -> Result<(), AllocError> {
        if self.has_room() {
            push_message(&mut self.text, "note", title, place, help)?;
        }
        self.notes = self.notes.saturating_add(1);
        Ok(())
    }

    /// Writes why a run ended, behind the notes.
    pub fn error(mut self, title: &str, place: &Place<'_>, help: &str) -> Result<String, AllocError>
        ensures { IfOk result (λ text. EndsLine (string_bytes text)) }
    {
        self.push_others()?;
        push_message(&mut self.text, "error", title, place, help)?;
        Ok(self.text)
    }

    /// The notes alone.
    pub fn finish(mut self) -> Result<String, AllocError> {
        self.push_others()?;
        Ok(self.text)
    }

    /// Writes how many notes are left out, where some are.
    fn push_others(&mut self) -> Result<(), AllocError> {
        if self.notes > MOST_NOTES {
            let more = self.notes - MOST_NOTES;
            write!(self.text, "note: {more} more notes are left out\n")?;
        }
        Ok(())
    }
}

/// Writes what is said, of which place, and what to do.
fn push_message(
    text: &mut String,
    kind: &str,
    title: &str,
    place: &Place<'_>,
    help: &str,
) -> Result<(), AllocError>
    ensures { OnOk result (EndsLine (string_bytes text.new)) }
{
    write!(text, "{kind}: {title}\n")?;
    push_place(text, place)?;
    write!(text, "  = {help}")?;
    text.push_str("\n")
}

fn push_place(text: &mut String, place: &Place<'_>) -> Result<(), AllocError> {
    let line = place.line;
    let file = Printed(place.file.as_bytes());
    if line == 0 {
        if place.file.is_empty() {
            return Ok(());
        }
        return write!(text, " --> {file}\n");
    }
    write!(text, " --> {file}:{line}\n")?;
    push_line(text, place)
}

/// Writes the line around the word that is meant, and marks under the word.
fn push_line(text: &mut String, place: &Place<'_>) -> Result<(), AllocError> {
    let before = last_bytes(place.before, BEFORE);
    let word = first_bytes(place.word, FROM);
    let behind = first_bytes(place.behind, FROM - word.len());
    let (front, middle, rest) = (Printed(before), Printed(word), Printed(behind));
    write!(text, "  | {front}{middle}{rest}\n")?;
    if !word.is_empty() {
        let blanks = Times(' ', before.len());
        let marks = Times('^', word.len());
        write!(text, "  | {blanks}{marks}\n")?;
    }
    Ok(())
}

/// So many bytes from the front, or all.
fn first_bytes(bytes: &[u8], most: usize) -> &[u8]
    ensures { length result.now ≤ most }
{
    if bytes.len() <= most {
        bytes
    } else {
        &bytes[..most]
    }
}

/// So many bytes from the end, or all.
fn last_bytes(bytes: &[u8], most: usize) -> &[u8] {
    if bytes.len() <= most {
        bytes
    } else {
        &bytes[bytes.len() - most..]
    }
}
