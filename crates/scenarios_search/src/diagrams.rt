ghost use Rattle.std.specs.Prelude.{◌<◌, IfOk};
ghost use Rattle.decision_diagram.specs.Table.{Extends, IsOf};

use decision_diagram::{Diagram, DiagramFault, Diagrams, NoMemory};
use std::alloc::Global;
use std::marker::Model;
use std::test::Fail;
use test_tables::{answered, parted, push_answer};

/// Two diagrams of one table: what a row draws, and another one.
#[derive(Drop)]
pub(crate) struct Drawn {
    pub(crate) table: Diagrams,
    pub(crate) root: Diagram,
    other: Diagram,
}

impl Model for Drawn {
    ghost use Rattle.std.specs.Prelude.{ℕ, List};
    ghost use Rattle.decision_diagram.specs.Table.{Table, IsOf};

    ghost Value = { Table × ℕ × ℕ };

    ghost view = { λ d. (d.table, d.root, d.other) };

    ghost invariant = { λ d. IsOf d.table d.root × IsOf d.table d.other };
}

impl Drawn {
    /// Nothing is drawn yet: both are false for all bits.
    fn new(alloc: Global, bits: u32) -> Result<Drawn, NoMemory> {
        let table = Diagrams::new(alloc, bits)?;
        let never = table.leaf(false);
        Ok(Drawn {
            table,
            root: never,
            other: never,
        })
    }

    /// Joins a test to what is drawn.
    fn join(&mut self, join: &str, test: &str) -> Result<(), Fail> {
        let test = tested(&mut self.table, test)?;
        self.root = joined(&mut self.table, join, self.root, test)?;
        Ok(())
    }

    /// Keeps of the other diagram what is true where the bit is the wanted one.
    fn fix(&mut self, bit: u32, wanted: bool) -> Result<(), DiagramFault> {
        if bit < self.table.bits() {
            let is_wanted = bit_is(&mut self.table, bit, wanted)?;
            self.other = self.table.and(self.other, is_wanted)?;
        }
        Ok(())
    }

    /// The value of what is drawn where the bits, of which the first is the heaviest, are those of a number.
    fn holds_at(&mut self, number: u64) -> Result<bool, DiagramFault> {
        self.other = self.root;
        let bits = self.table.bits().min(6);
        for place in 0..bits {
            self.fix(bits - 1 - place, (number >> place) & 1 == 1)?;
        }
        let never = self.table.leaf(false);
        Ok(!self.table.same(self.other, never))
    }
}

/// The diagram that is true where the bit is the wanted one.
fn bit_is(table: &mut Diagrams, bit: u32, wanted: bool) -> Result<Diagram, DiagramFault>
    requires { bit < table.old.bits }
    ensures within { IfOk result (IsOf table.new) }
    ensures older { Extends table.old table.new }
{
    let (never, always) = (table.leaf(false), table.leaf(true));
    if wanted {
        table.branch(bit, never, always)
    } else {
        table.branch(bit, always, never)
    }
}

/// The one or the other, both, the one without the other, or where they agree.
fn joined(table: &mut Diagrams, join: &str, a: Diagram, b: Diagram) -> Result<Diagram, DiagramFault>
    requires a { IsOf table.old a }
    requires b { IsOf table.old b }
    ensures within { IfOk result (IsOf table.new) }
    ensures older { Extends table.old table.new }
{
    match join {
        "or" => table.or(a, b),
        "and" => table.and(a, b),
        "less" => {
            let without = table.not(b)?;
            table.and(a, without)
        }
        _ => {
            let differs = table.not(a)?;
            table.ite(b, a, differs)
        }
    }
}

/// The diagram of a test: `masked` or `range`, a first bit, a number of bits, and a value and its wildcard or two ends.
fn tested(table: &mut Diagrams, test: &str) -> Result<Diagram, Fail>
    ensures within { IfOk result (IsOf table.new) }
    ensures older { Extends table.old table.new }
{
    let (kind, rest) = parted(test)?;
    let (first, rest) = parted(rest)?;
    let (width, rest) = parted(rest)?;
    let (a, b) = parted(rest)?;
    let (first, width) = (first.parse::<u32>()?, width.parse::<u32>()?);
    let (a, b) = (a.parse::<u128>()?, b.parse::<u128>()?);
    if width > 128 || first > table.bits() || width > table.bits() - first {
        return Err("bits that are not there")?;
    }
    let always = table.leaf(true);
    if kind == "masked" {
        Ok(table.masked(first, width, a, b, always)?)
    } else {
        Ok(table.range(first, width, a, b, always)?)
    }
}

/// Joins these tests, each with how it is joined before it and a semicolon behind it.
fn join_all(drawn: &mut Drawn, tests: &str) -> Result<(), Fail> {
    let mut rest = tests;
    for _ in 0..tests.len() {
        let Some((first, others)) = rest.split_once(";") else {
            break;
        };
        let (join, test) = parted(first)?;
        drawn.join(join, test)?;
        rest = others;
    }
    Ok(())
}

/// The number of bits and, behind a blank, tests.
pub(crate) fn draw(alloc: Global, formula: &str) -> Result<Drawn, Fail> {
    let (bits, tests) = parted(formula)?;
    let mut drawn = Drawn::new(alloc, bits.parse::<u32>()?)?;
    join_all(&mut drawn, tests)?;
    Ok(drawn)
}

/// Writes the value for each number that the bits can be, from 0 on.
fn push_values(alloc: Global, formula: &str, text: &mut String) -> Result<(), Fail> {
    let mut drawn = draw(alloc, formula)?;
    let bits = drawn.table.bits().min(6);
    for number in 0..1_u64 << bits {
        text.push(if drawn.holds_at(number)? { '1' } else { '0' })?;
    }
    Ok(())
}

/// Both ends of a range; ends the wrong way round; all numbers; an end past the bits. A wildcard, and a value past the
/// bits. A test of no bits, and a part of the bits left out. Parts of bits joined in each way.
const VALUES: &str = "4 or range 0 4 5 9; => 0000011111000000
4 or range 0 4 9 5; => 0000000000000000
4 or range 0 4 0 15; => 1111111111111111
4 or range 0 4 11 16; => 0000000000011111
4 or masked 0 4 10 5; => 0000000000110011
4 or masked 0 4 26 5; => 0000000000000000
4 or masked 0 0 0 0;less masked 1 2 0 0; => 0011111100111111
5 or masked 0 2 1 0;or range 2 3 1 6;and masked 4 1 1 0; => 01010100010101010101010001010100
5 or range 0 5 3 20;less range 1 3 2 5; => 00010000000011111111000000000000
6 or range 0 3 2 5;iff range 3 3 2 5; => \
1100001111000011001111000011110000111100001111001100001111000011
";

#[test]
fn diagrams_have_their_values(rt: HostRuntime) -> Result<(), Fail> {
    let text = answered(rt.alloc(), VALUES, "\n", push_values)?;
    assert_eq!(rt; text.as_str(), VALUES);
    Ok(())
}

/// Whether a number passes a test of four bits.
fn passes(kind: &str, number: u64, a: u64, b: u64) -> bool {
    if kind == "masked" {
        (number ^ a) & !b == 0
    } else {
        a <= number && number <= b
    }
}

/// How many numbers of four bits have a wrong value, for all tests of a kind with two numbers below 18, of which two have
/// no four bits.
fn wrong_values(alloc: Global, kind: &str) -> Result<u32, Fail> {
    let mut wrong: u32 = 0;
    for place in 0..18 * 18 * 16_u64 {
        let (number, a, b) = (place % 16, place / 16 % 18, place / 288);
        let mut drawn = Drawn::new(alloc, 4)?;
        let mut test = String::new(alloc);
        write!(test, "{kind} 0 4 {a} {b}")?;
        drawn.join("or", test.as_str())?;
        if drawn.holds_at(number)? != passes(kind, number, a, b) {
            wrong = wrong.saturating_add(1);
        }
    }
    Ok(wrong)
}

#[test]
fn all_tests_of_four_bits_have_their_values(rt: HostRuntime) -> Result<(), Fail> {
    let masked = wrong_values(rt.alloc(), "masked")?;
    assert_eq!(rt; masked, 0);
    let range = wrong_values(rt.alloc(), "range")?;
    assert_eq!(rt; range, 0);
    Ok(())
}

/// Writes whether two formulas over as many bits, with a bar between them, are one diagram.
fn push_same(alloc: Global, formulas: &str, text: &mut String) -> Result<(), Fail> {
    let (one, other) = formulas.split_once("|").ok_or("no bar")?;
    let mut drawn = draw(alloc, one)?;
    drawn.other = drawn.root;
    drawn.root = drawn.table.leaf(false);
    join_all(&mut drawn, other)?;
    push_answer(text, drawn.table.same(drawn.root, drawn.other))
}

/// One range and the same in halves; a pattern and the same as ranges; a difference at one number; a formula that no
/// number has, and one that all have; and that two bits agree, from either side.
const SAME: &str = "4 or range 0 4 5 9;|or range 0 4 5 6;or range 0 4 7 9; => yes
4 or masked 0 4 8 3;|or range 0 4 8 11; => yes
4 or range 0 4 5 9;|or range 0 4 5 8; => no
4 or masked 0 1 1 0;less masked 0 1 1 0;|or range 0 4 9 5; => yes
4 or masked 0 1 1 0;or masked 0 1 0 0;|or range 0 4 0 15; => yes
4 or masked 0 1 1 0;iff masked 3 1 1 0;|or masked 3 1 1 0;iff masked 0 1 1 0; => yes
4 or masked 0 1 1 0;|or masked 1 1 1 0; => no
";

#[test]
fn equal_values_are_one_diagram(rt: HostRuntime) -> Result<(), Fail> {
    let text = answered(rt.alloc(), SAME, "\n", push_same)?;
    assert_eq!(rt; text.as_str(), SAME);
    Ok(())
}

/// Writes the place of a diagram among the nodes.
fn push_place(alloc: Global, diagram: Diagram, text: &mut String) -> Result<(), Fail> {
    let mut shown = String::new(alloc);
    write!(shown, "{diagram:?}")?;
    let (_, rest) = shown.as_str().split_once("place: ").ok_or("no place")?;
    let (place, _) = parted(rest)?;
    write!(text, " {place}")?;
    Ok(())
}

/// Writes of a diagram that stands alone how many nodes there are, whether fewer than before, and its place; and the
/// places of parts of it, which are formulas with a bar behind each, and how many nodes there are then.
fn push_alone(alloc: Global, formulas: &str, text: &mut String) -> Result<(), Fail> {
    let (formula, parts) = formulas.split_once("|").ok_or("no bar")?;
    let whole = draw(alloc, formula)?;
    let (bits, made) = (whole.table.bits(), whole.table.node_count());
    let (table, root) = whole.table.alone(alloc, whole.root)?;
    let other = root;
    let mut drawn = Drawn { table, root, other };
    let left = drawn.table.node_count();
    let of = if left < made { "left" } else { "as before" };
    write!(text, "{left} {of}, at")?;
    push_place(alloc, drawn.root, text)?;
    let mut rest = parts;
    for _ in 0..parts.len() {
        let Some((part, others)) = rest.split_once("|") else {
            break;
        };
        drawn.root = drawn.table.leaf(false);
        join_all(&mut drawn, part)?;
        push_place(alloc, drawn.root, text)?;
        rest = others;
    }
    let is_kept = drawn.table.node_count() == left && drawn.table.bits() == bits;
    text.push_str(if is_kept { "" } else { ", and more" })?;
    Ok(())
}

/// Leaves; a diagram of which nothing is dropped; one with its parts from the lowest bit of its low side on; and one of
/// two branches on the same bit. Parts that are no parts are made anew.
const ALONE: &str = "4 or range 0 4 0 15;| => 2 as before, at 1
4 or range 0 4 9 5;| => 2 left, at 0
4 or masked 0 4 26 5;| => 2 as before, at 0
4 or masked 0 2 3 0;| => 4 as before, at 3
4 or range 0 4 5 9;|or masked 3 1 1 0;|or range 2 2 1 3;|or range 1 3 5 7;|or masked 2 1 0 0;\
|or masked 1 2 0 0;| => 8 left, at 7 2 3 4 5 6
4 or masked 0 1 1 0;iff masked 3 1 1 0;|or masked 3 1 0 0;|or masked 3 1 1 0;| => 5 left, at 4 2 3
4 or masked 0 4 15 0;less masked 3 1 0 0;|or masked 1 1 1 0;| => 6 left, at 5 6, and more
";

#[test]
fn a_diagram_alone_has_its_nodes_in_order(rt: HostRuntime) -> Result<(), Fail> {
    let text = answered(rt.alloc(), ALONE, "\n", push_alone)?;
    assert_eq!(rt; text.as_str(), ALONE);
    Ok(())
}
