use ios_lex::{Word, words_in};
use ios_names::NameTable;
use std::alloc::Global;
use std::test::Fail;
use test_tables::{answered, push_bytes};

/// The table of the names of both kinds, of which there are eight at most.
fn table_of(alloc: Global, known: &[Word], added: &[Word]) -> Result<NameTable, Fail> {
    if known.len() > 8 || added.len() > 8 {
        return Err("too many names")?;
    }
    let mut table = NameTable::new(alloc);
    table.add_all(known)?;
    table.add_all(added)?;
    Ok(table)
}

/// Writes the names in the order of their places, before each its place, and then how many there are.
fn push_names(text: &mut String, table: &NameTable) -> Result<(), Fail> {
    for place in 0..u16::MAX {
        let Some(name) = table.name(place) else {
            break;
        };
        let found = table.place(name.bytes()).ok_or("a name without a place")?;
        write!(text, "{found} ")?;
        push_bytes(text, name.bytes())?;
        text.push_str(", ")?;
    }
    Ok(write!(text, "{}", table.len())?)
}

/// Writes the table of the names before the stroke, to which those behind it are added.
fn push_table(alloc: Global, given: &str, text: &mut String) -> Result<(), Fail> {
    let (known, added) = given.split_once(" / ").ok_or("no stroke")?;
    let (known, added) = (
        words_in(alloc, known.as_bytes())?,
        words_in(alloc, added.as_bytes())?,
    );
    push_names(text, &table_of(alloc, known.as_slice(), added.as_slice())?)
}

/// Names that are known, a stroke, and names that are added; the names with their places, and how many they are.
const NAMES: &str = " /  => 0
e0 / e0 => 0 e0, 1
Serial0/0 e1 Serial0/0 / e2 E1 e1 e2 => 0 Serial0/0, 1 e1, 2 e2, 3 E1, 4
";

#[test]
fn each_name_has_one_place(rt: HostRuntime) -> Result<(), Fail> {
    let text = answered(rt.alloc(), NAMES, "\n", push_table)?;
    assert_eq!(rt; text.as_str(), NAMES);
    Ok(())
}
