ghost use Rattle.std.specs.Prelude.{◌≡◌, ◌^◌, true, map, IfOk};
ghost use Rattle.std.specs.List.{list_all};
ghost use Rattle.sorted_logic.specs.Field.{bits};
ghost use Rattle.list_questions.specs.Ranges.{test_fits, test_of};

use crate::NoMemory;
use crate::field_test::FieldTest;
use frame::{Pattern, Test};
use sorted_logic::Field;
use std::alloc::Global;

/// Whether the numbers of the test are numbers of its field, and a range does not end before it begins.
pub fn fits(test: &FieldTest) -> bool
    ensures { result ≡ test_fits test.now }
{
    match test {
        FieldTest::Masked {
            field,
            value,
            wildcard,
        } => *value < bound(*field) && *wildcard < bound(*field),
        FieldTest::Range { field, lo, hi } => {
            *lo < bound(*field) && *hi < bound(*field) && *lo <= *hi
        }
    }
}

/// What the numbers of the field are below.
pub(crate) fn bound(field: Field) -> u128
    ensures { result ≡ 2 ^ bits field }
{
    match field {
        Field::SrcIn | Field::DstIn | Field::SrcOut | Field::DstOut | Field::NextHop =>
            4_294_967_296,
        Field::Entry | Field::Exit => 65_536,
        Field::SportIn | Field::DportIn | Field::SportOut | Field::DportOut => 65_536,
        Field::Proto | Field::IcmpType | Field::IcmpCode => 256,
        Field::Flags => 64,
    }
}

/// The same tests, as a question is asked with them.
pub fn tests_of(alloc: Global, tests: &[FieldTest]) -> Result<Vec<Test>, NoMemory>
    requires { list_all test_fits tests.now ≡ true }
    ensures { IfOk result (λ asked. asked.items ≡ map test_of tests.now) }
{
    let mut asked = Vec::new(alloc);
    for test in tests {
        asked.push(test_of(*test))?;
    }
    Ok(asked)
}

fn test_of(test: FieldTest) -> Test
    requires { test_fits test ≡ true }
    ensures { result ≡ test_of test }
{
    match test {
        FieldTest::Masked {
            field,
            value,
            wildcard,
        } => Test {
            field,
            pattern: Pattern::Masked {
                value: value as u32,
                wildcard: wildcard as u32,
            },
        },
        FieldTest::Range { field, lo, hi } => Test {
            field,
            pattern: Pattern::Range {
                low: lo as u32,
                high: hi as u32,
            },
        },
    }
}
