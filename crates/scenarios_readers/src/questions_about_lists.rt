use frame::{Pattern, Test};
use ios_acl::Packet;
use ios_lex::Word;
use ios_names::NameTable;
use list_questions::{FieldTest, LiteralFault, fits, packet_of, tests_of};
use query_lang::Literal;
use sorted_logic::{Field, Text};
use std::alloc::Global;
use std::test::Fail;
use test_tables::{answered, push_packet};

/// A field, a blank, and a value and its wildcard around `/` or the ends of a range around `-`.
fn test_of(text: &str) -> Result<FieldTest, Fail> {
    let (name, numbers) = text.split_once(' ').ok_or("a test without a blank")?;
    let field = Field::in_packet(name.as_bytes()).ok_or("no field")?;
    if let Some((value, wildcard)) = numbers.split_once('/') {
        let (value, wildcard) = (value.parse::<u128>()?, wildcard.parse::<u128>()?);
        return Ok(FieldTest::Masked {
            field,
            value,
            wildcard,
        });
    }
    let (lo, hi) = numbers.split_once('-').ok_or("no numbers")?;
    let (lo, hi) = (lo.parse::<u128>()?, hi.parse::<u128>()?);
    Ok(FieldTest::Range { field, lo, hi })
}

/// Writes the test as a question is asked with it.
fn push_asked(text: &mut String, test: &Test) -> Result<(), Fail> {
    text.push_str(test.field.name())?;
    match test.pattern {
        Pattern::Masked { value, wildcard } => write!(text, " {value}/{wildcard}")?,
        Pattern::Range { low, high } => write!(text, " {low}-{high}")?,
    }
    Ok(())
}

fn push_test(alloc: Global, given: &str, text: &mut String) -> Result<(), Fail> {
    let test = test_of(given)?;
    if !fits(&test) {
        text.push_str("does not fit")?;
        return Ok(());
    }
    for asked in &tests_of(alloc, &[test])? {
        push_asked(text, asked)?;
    }
    Ok(())
}

/// Tests, and the tests that a question is asked with, where their numbers fit.
const TESTS: &str = "src_in 4294967295-4294967295 => src_in 4294967295-4294967295~
dst_in 4294967296-4294967296 => does not fit~
sport_in 0/65535 => sport_in 0/65535~
dport_in 0/65536 => does not fit~
dport_in 20-25 => dport_in 20-25~
dport_in 5-3 => does not fit~
proto 255/0 => proto 255/0~
proto 256/0 => does not fit~
flags 63-63 => flags 63-63~
flags 0-64 => does not fit~
icmp_type 255-255 => icmp_type 255-255~
icmp_code 340282366920938463463374607431768211455/0 => does not fit~
";

#[test]
fn tests_of_fields_fit(rt: HostRuntime) -> Result<(), Fail> {
    let text = answered(rt.alloc(), TESTS, "~\n", push_test)?;
    assert_eq!(rt; text.as_str(), TESTS);
    Ok(())
}

/// A number, or the name of an interface.
fn literal_of(alloc: Global, word: &str) -> Result<Literal, Fail> {
    match word.parse::<u128>() {
        Ok(number) => Ok(Literal::Number(number)),
        Err(_) => Ok(Literal::Interface(Text::of(alloc, word)?)),
    }
}

/// The literals of these words, which blanks part.
fn literals_of(alloc: Global, words: &str) -> Result<Vec<Literal>, Fail> {
    let mut literals = Vec::new(alloc);
    let mut rest = words;
    for _ in 0..words.len() {
        let Some((word, others)) = rest.split_once(' ') else {
            break;
        };
        literals.push(literal_of(alloc, word)?)?;
        rest = others;
    }
    literals.push(literal_of(alloc, rest)?)?;
    Ok(literals)
}

/// Writes the packet, or why there is none.
fn push_outcome(text: &mut String, packet: Result<Packet, LiteralFault>) -> Result<(), Fail> {
    match packet {
        Ok(packet) => push_packet(text, &packet),
        Err(LiteralFault::OutOfRange) => Ok(text.push_str("out of range")?),
        Err(LiteralFault::UnknownName) => Ok(text.push_str("unknown name")?),
    }
}

/// The names of two interfaces.
fn names_of(alloc: Global) -> Result<NameTable, Fail> {
    let mut names = NameTable::new(alloc);
    let first = Word::of(alloc, b"Ethernet0")?;
    let second = Word::of(alloc, b"Serial0")?;
    names.add_all(&[first, second])?;
    Ok(names)
}

fn push_packet_of(alloc: Global, given: &str, text: &mut String) -> Result<(), Fail> {
    let literals = literals_of(alloc, given)?;
    if literals.len() != 8 {
        return Err("not eight literals")?;
    }
    let names = names_of(alloc)?;
    push_outcome(text, packet_of(&names, literals.as_slice()))
}

/// Eight literals, and their packet, or the fault of the first that is no number of its field.
const PACKETS: &str = "167837957 3221225985 1024 80 6 16 0 0 => a010105 c0000201 1024 80 6 16 0 0~
4294967295 4294967295 65535 65535 255 63 255 255 => ffffffff ffffffff 65535 65535 255 63 255 255~
4294967296 0 0 0 0 0 0 0 => out of range~
0 0 0 0 0 64 0 0 => out of range~
0 0 0 0 0 0 0 340282366920938463463374607431768211455 => out of range~
0 0 Ethernet0 Serial0 0 Serial0 0 0 => 0 0 0 1 0 1 0 0~
0 0 65536 Ethernet1 0 0 0 0 => out of range~
0 0 Ethernet1 65536 0 0 0 0 => unknown name~
0 0 ethernet0 0 0 0 0 0 => unknown name~
";

#[test]
fn eight_numbers_are_a_packet(rt: HostRuntime) -> Result<(), Fail> {
    let text = answered(rt.alloc(), PACKETS, "~\n", push_packet_of)?;
    assert_eq!(rt; text.as_str(), PACKETS);
    Ok(())
}
