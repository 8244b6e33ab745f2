use crate::scattered::{Agreeing, Value, is_scattered};
use ios_lex::prefix_len;
use notes::{Place, Report, found, line_place, whole_file};
use query_lang::{Kind, Literal, Named, NamedTerm, Script};
use std::alloc::{AllocError, Global};

/// A test `FIELD IN VALUE WILDCARD`.
#[derive(Clone, Copy, Debug)]
struct Masked<'a> {
    field: &'a str,
    value: u32,
    wildcard: u32,
}

/// Where a statement begins.
#[derive(Clone, Copy, Debug)]
struct Start<'a> {
    file: &'a str,
    bytes: &'a [u8],
    line: u64,
}

impl<'a> Start<'a> {
    /// The first place of these bytes in the statement or behind it; its line, where there is none.
    fn place_of(&self, text: &[u8]) -> Place<'a> {
        match found(self.file, self.bytes, self.line, text) {
            Some(place) => place,
            None => line_place(self.file, self.bytes, self.line),
        }
    }
}

impl Masked<'_> {
    fn is_address(&self) -> bool {
        self.field == "src_in" || self.field == "dst_in"
    }

    fn shown(&self, number: u32) -> Value {
        Value {
            is_address: self.is_address(),
            number,
        }
    }
}

/// Adds a note for a script without statements, and for each test of an EXPLORE up to this line whose wildcard is no row
/// of ones at its low end.
pub fn script_notes(
    alloc: Global,
    file: &str,
    bytes: &[u8],
    script: &Script,
    last: u64,
    report: &mut Report,
) -> Result<(), AllocError> {
    if script.statements.is_empty() {
        return report.note(
            "the script has no statement, so nothing is asked",
            &whole_file(file),
            "docs/language.md says what to write",
        );
    }
    for statement in script.statements.as_slice() {
        if let Kind::Explore(question) = &statement.kind {
            if statement.line <= last {
                let start = Start {
                    file,
                    bytes,
                    line: statement.line,
                };
                formula_notes(alloc, &start, &question.formula, report)?;
            }
        }
    }
    Ok(())
}

/// Adds a note for each such test of a formula that stands from this line on.
fn formula_notes(
    alloc: Global,
    start: &Start<'_>,
    formula: &Named,
    report: &mut Report,
) -> Result<(), AllocError> {
    if let Named::And(parts) = formula {
        for part in parts.as_slice() {
            if let Some(test) = scattered_test(part) {
                test_note(alloc, start, &test, report)?;
            }
        }
    }
    Ok(())
}

/// The test that the formula is, where its wildcard is no row of ones at its low end.
fn scattered_test(formula: &Named) -> Option<Masked<'_>> {
    let Named::Masked(NamedTerm::Name(field), Literal::Number(value), Literal::Number(wildcard)) =
        formula
    else {
        return None;
    };
    let wildcard = u32::try_from(*wildcard).ok()?;
    if !is_scattered(wildcard) {
        return None;
    }
    Some(Masked {
        field: field.as_str(),
        value: u32::try_from(*value).ok()?,
        wildcard,
    })
}

fn test_note(
    alloc: Global,
    start: &Start<'_>,
    test: &Masked<'_>,
    report: &mut Report,
) -> Result<(), AllocError> {
    let field = test.field;
    let value = test.shown(test.value);
    let wildcard = test.shown(test.wildcard);
    let written = format!(in alloc; "{field} IN {value} {wildcard}")?;
    let values = Agreeing {
        is_address: test.is_address(),
        value: test.value,
        wildcard: test.wildcard,
    };
    let title = format!(in alloc; "this test is no range: it holds of {values}")?;
    let cure = cure_of(alloc, test)?;
    let help = format!(in alloc;
        "in {field} IN V W each bit that is 1 in W may be either; {cure}"
    )?;
    // A place costs a walk through the file.
    let place = if report.has_room() {
        start.place_of(written.as_bytes())
    } else {
        whole_file(start.file)
    };
    report.note(title.as_str(), &place, help.as_str())
}

/// What is written where a range is meant.
fn cure_of(alloc: Global, test: &Masked<'_>) -> Result<String, AllocError> {
    let field = test.field;
    if field == "flags" {
        return String::from_str(
            alloc,
            "flags are FIN 1, SYN 2, RST 4, PSH 8, ACK 16, URG 32",
        );
    }
    let value = test.shown(test.value);
    if test.is_address() && is_mask(test.wildcard) {
        let wildcard = test.shown(!test.wildcard);
        format!(in alloc; "a mask is turned into a wildcard: {field} IN {value} {wildcard}")
    } else if test.value <= test.wildcard {
        let end = test.shown(test.wildcard);
        format!(in alloc; "a range is {field} IN {value} TO {end}")
    } else {
        format!(in alloc; "a range is {field} IN LO TO HI")
    }
}

/// Whether the number is ones and then zeros.
fn is_mask(number: u32) -> bool {
    number != 0 && prefix_len(number).is_some()
}
