use list_questions::{FieldTest, fits, question_of};
use notes::{Place, found};
use query_lang::{Kind, Script};
use std::alloc::{AllocError, Global};

/// The test of an EXPLORE on this line whose numbers do not fit its field; the line, where none is found.
pub(crate) fn unfit_place<'a>(
    alloc: Global,
    script: &Script,
    bytes: &'a [u8],
    line: &Place<'a>,
) -> Result<Place<'a>, AllocError> {
    for statement in script.statements.as_slice() {
        if statement.line == line.line {
            if let Kind::Explore(explore) = &statement.kind {
                let Some(question) = question_of(alloc, explore)? else {
                    return Ok(*line);
                };
                return first_unfit(alloc, question.tests.as_slice(), bytes, line);
            }
        }
    }
    Ok(*line)
}

/// The first test whose numbers do not fit its field.
fn first_unfit<'a>(
    alloc: Global,
    tests: &[FieldTest],
    bytes: &'a [u8],
    line: &Place<'a>,
) -> Result<Place<'a>, AllocError> {
    for test in tests {
        if !fits(test) {
            let text = text_of(alloc, test)?;
            let place = found(line.file, bytes, line.line, text.as_bytes());
            return Ok(place.unwrap_or(*line));
        }
    }
    Ok(*line)
}

/// The test as it is mostly written, with plain numbers.
fn text_of(alloc: Global, test: &FieldTest) -> Result<String, AllocError> {
    match test {
        FieldTest::Masked {
            field,
            value,
            wildcard,
        } => {
            let field = field.name();
            format!(in alloc; "{field} IN {value} {wildcard}")
        }
        FieldTest::Range { field, lo, hi } if lo == hi => {
            let field = field.name();
            format!(in alloc; "{field} IN {lo}")
        }
        FieldTest::Range { field, lo, hi } => {
            let field = field.name();
            format!(in alloc; "{field} IN {lo} TO {hi}")
        }
    }
}
