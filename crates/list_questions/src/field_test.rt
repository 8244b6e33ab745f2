ghost use Rattle.std.specs.Prelude.{◌≡◌, IfOk};
ghost use Rattle.list_questions.specs.Shapes.{field_of, masked_test, number_of, range_test, read_test, read_tests};

use crate::NoMemory;
use query_lang::{Literal, Named, NamedTerm};
use sorted_logic::Field;
use sqlite_items::Items;
use std::alloc::Global;

/// A test of a field of the packet that comes in. Nothing bounds the numbers.
#[derive(Clone, Copy, Debug, PartialEq, Eq)]
pub enum FieldTest {
    /// The field agrees with the value on each bit that is 0 in the wildcard.
    Masked {
        field: Field,
        value: u128,
        wildcard: u128,
    },
    /// The field lies between the two.
    Range {
        field: Field,
        lo: u128,
        hi: u128,
    },
}

/// The tests that the formulas are, where each is one.
#[tactic(auto, using(crate::proofs::TestShapes::before_none, crate::proofs::TestShapes::before_more, crate::proofs::TestShapes::before_stop))]
pub(crate) fn tests_of(
    alloc: Global,
    formulas: &[Named],
) -> Result<Option<Items<FieldTest>>, NoMemory>
    ensures { IfOk result (λ tests. tests ≡ read_tests formulas.now) }
{
    let mut tests = Items::new(alloc);
    for formula in formulas {
        let Some(test) = test_of(formula) else {
            return Ok(None);
        };
        tests.push(test)?;
    }
    Ok(Some(tests))
}

/// The test that the formula is.
fn test_of(formula: &Named) -> Option<FieldTest>
    ensures { result ≡ read_test formula.now }
{
    match formula {
        Named::Masked(term, value, wildcard) => masked_test(term, value, wildcard),
        Named::Range(term, lo, hi) => range_test(term, lo, hi),
        _ => None,
    }
}

fn masked_test(term: &NamedTerm, value: &Literal, wildcard: &Literal) -> Option<FieldTest>
    ensures { result
        ≡ masked_test (field_of term.now) (number_of value.now) (number_of wildcard.now) }
{
    Some(FieldTest::Masked {
        field: field_of(term)?,
        value: number_of(value)?,
        wildcard: number_of(wildcard)?,
    })
}

fn range_test(term: &NamedTerm, lo: &Literal, hi: &Literal) -> Option<FieldTest>
    ensures { result ≡ range_test (field_of term.now) (number_of lo.now) (number_of hi.now) }
{
    Some(FieldTest::Range {
        field: field_of(term)?,
        lo: number_of(lo)?,
        hi: number_of(hi)?,
    })
}

/// The field of the packet that the term names, where it is a name alone.
#[tactic(auto, using(crate::proofs::PacketFields::packet_field_is))]
fn field_of(term: &NamedTerm) -> Option<Field>
    ensures { result ≡ field_of term.now }
{
    match term {
        NamedTerm::Name(name) => Field::in_packet(name.bytes()),
        NamedTerm::Call { name: _, args: _ } => None,
    }
}

fn number_of(literal: &Literal) -> Option<u128>
    ensures { result ≡ number_of literal.now }
{
    match literal {
        Literal::Number(number) => Some(*number),
        Literal::Interface(_) => None,
    }
}
