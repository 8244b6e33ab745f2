ghost use Rattle.std.specs.Prelude.{◌≡◌, ◌<◌, ◌≤◌, [], length, IfOk, OnOk};
ghost use Rattle.circuit.specs.Value.{AreNodes, input_count};

use circuit::{
    Circuit, NoMemory, Node, clauses_are_circuits, gates_are_shared, gates_are_tests, least, to_cnf,
};
use std::alloc::Global;
use std::test::Fail;
use test_tables::{answered, parted, push_number};

/// The least inputs that make the root true, `1` for true and `0` for false; or `none`.
fn least_inputs(alloc: Global, circuit: &Circuit, root: Node) -> Result<String, Fail>
    requires { root < length circuit.now }
{
    let mut text = String::new(alloc);
    match least(alloc, circuit, root)? {
        Some(values) => {
            for value in values.as_slice() {
                text.push(if *value { '1' } else { '0' })?;
            }
        }
        None => text.push_str("none")?,
    }
    Ok(text)
}

/// A node that is true where a node is and is not.
fn contradiction(circuit: &mut Circuit, node: Node) -> Result<Node, NoMemory>
    requires { node < length circuit.old }
    ensures { IfOk result (λ root. root < length circuit.new) }
{
    let other = circuit.not(node)?;
    circuit.and(&[node, other])
}

fn three_inputs(circuit: &mut Circuit) -> Result<[Node; 3], NoMemory>
    ensures { IfOk result (λ bits. AreNodes circuit.new bits) }
{
    Ok([circuit.input()?, circuit.input()?, circuit.input()?])
}

/// A node over inputs x, y and z. The second value contradicts the first, so that the first has to be true.
fn goes_back(circuit: &mut Circuit) -> Result<Node, NoMemory>
    ensures { IfOk result (λ root. root < length circuit.new) }
{
    let [x, y, z] = three_inputs(circuit)?;
    let not_y = circuit.not(y)?;
    let either = circuit.or(&[x, y])?;
    let other = circuit.or(&[x, not_y])?;
    circuit.and(&[either, other, z])
}

#[test]
fn least_goes_back(rt: HostRuntime) -> Result<(), Fail> {
    let mut circuit = Circuit::new(rt.alloc());
    let root = goes_back(&mut circuit)?;
    let text = least_inputs(rt.alloc(), &circuit, root)?;
    assert_eq!(rt; text.as_str(), "101");
    Ok(())
}

#[test]
fn a_contradiction_has_no_inputs(rt: HostRuntime) -> Result<(), Fail> {
    let mut circuit = Circuit::new(rt.alloc());
    let node = goes_back(&mut circuit)?;
    let root = contradiction(&mut circuit, node)?;
    let text = least_inputs(rt.alloc(), &circuit, root)?;
    assert_eq!(rt; text.as_str(), "none");
    Ok(())
}

/// Four bits `1.1.`, the second of them set too.
fn masked_and_set(circuit: &mut Circuit) -> Result<Node, NoMemory>
    ensures { IfOk result (λ root. root < length circuit.new) }
{
    let bits = four_inputs(circuit)?;
    let test = circuit.masked(&bits, 0b1010, 0b0101)?;
    circuit.and(&[test, bits[1]])
}

/// Four bits, and a value with a one above them.
fn masked_too_large(circuit: &mut Circuit) -> Result<Node, NoMemory>
    ensures { IfOk result (λ root. root < length circuit.new) }
{
    let bits = four_inputs(circuit)?;
    circuit.masked(&bits, 0b1_0000, 0b1111)
}

fn four_inputs(circuit: &mut Circuit) -> Result<[Node; 4], NoMemory>
    ensures { IfOk result (λ bits. AreNodes circuit.new bits) }
{
    Ok([
        circuit.input()?,
        circuit.input()?,
        circuit.input()?,
        circuit.input()?,
    ])
}

#[test]
fn masked_agrees_off_the_wildcard(rt: HostRuntime) -> Result<(), Fail> {
    let mut circuit = Circuit::new(rt.alloc());
    let root = masked_and_set(&mut circuit)?;
    let text = least_inputs(rt.alloc(), &circuit, root)?;
    assert_eq!(rt; text.as_str(), "1110");
    Ok(())
}

#[test]
fn masked_agrees_with_no_value_above_the_bits(rt: HostRuntime) -> Result<(), Fail> {
    let mut circuit = Circuit::new(rt.alloc());
    let root = masked_too_large(&mut circuit)?;
    let text = least_inputs(rt.alloc(), &circuit, root)?;
    assert_eq!(rt; text.as_str(), "none");
    Ok(())
}

/// So many bits that are inputs.
pub(crate) fn inputs(
    alloc: Global,
    circuit: &mut Circuit,
    count: usize,
) -> Result<Vec<Node>, NoMemory>
    ensures nodes { IfOk result (λ bits. AreNodes circuit.new bits.items) }
    ensures count { IfOk result (λ bits. length bits.items ≡ count) }
{
    let mut bits = Vec::new(alloc);
    for _ in 0..count {
        bits.push(circuit.input()?)?;
    }
    Ok(bits)
}

/// The least inputs that are the bits of a number in a range.
fn least_in_range(
    alloc: Global,
    count: usize,
    lo: u128,
    hi: u128,
) -> Result<Option<Vec<bool>>, NoMemory>
    requires { count ≤ 128 }
{
    let mut circuit = Circuit::new(alloc);
    let bits = inputs(alloc, &mut circuit, count)?;
    let root = circuit.range(bits.as_slice(), lo, hi)?;
    least(alloc, &circuit, root)
}

/// The number that the values are the bits of, highest first.
pub(crate) fn number_of(values: &[bool]) -> u128 {
    let mut number: u128 = 0;
    for value in values {
        number = number.wrapping_mul(2).wrapping_add(u128::from(*value));
    }
    number
}

/// Writes the least number of so many bits in a range: the number of bits and the two ends are given.
fn push_least_in_range(alloc: Global, given: &str, text: &mut String) -> Result<(), Fail> {
    let (count, ends) = parted(given)?;
    let (lo, hi) = parted(ends)?;
    let count = count.parse::<usize>()?;
    if count > 128 {
        return Err("too many bits")?;
    }
    let values = least_in_range(alloc, count, lo.parse::<u128>()?, hi.parse::<u128>()?)?;
    push_number(text, values.map(|values| number_of(values.as_slice())))
}

/// How many bits there are, and both ends, and the least number of the range: ends above the bits, the wrong way round,
/// and over no bits and 128 bits, where 2^128 - 1 is the greatest number, and 2^127 the first that has the highest bit.
const RANGES: &str = "4 5 9 => 5
4 15 15 => 15
4 0 0 => 0
4 9 5 => none
4 6 5 => none
4 11 16 => 11
4 16 340282366920938463463374607431768211455 => none
0 0 0 => 0
0 1 1 => none
128 340282366920938463463374607431768211455 340282366920938463463374607431768211455 \
=> 340282366920938463463374607431768211455
128 170141183460469231731687303715884105728 340282366920938463463374607431768211455 \
=> 170141183460469231731687303715884105728
";

#[test]
fn range_has_both_ends(rt: HostRuntime) -> Result<(), Fail> {
    let text = answered(rt.alloc(), RANGES, "\n", push_least_in_range)?;
    assert_eq!(rt; text.as_str(), RANGES);
    Ok(())
}

/// A condition and two parts, and the choice between the parts; and with it, that the last part is false.
fn choice(circuit: &mut Circuit) -> Result<(Node, Node), NoMemory>
    ensures { IfOk result (λ nodes.
        (nodes.0 < length circuit.new) × (nodes.1 < length circuit.new)) }
{
    let [condition, a, b] = three_inputs(circuit)?;
    let choice = circuit.ite(condition, a, b)?;
    let not_b = circuit.not(b)?;
    let root = circuit.and(&[choice, not_b])?;
    Ok((choice, root))
}

/// With the condition false the last part has to be true.
#[test]
fn ite_chooses_the_last_part(rt: HostRuntime) -> Result<(), Fail> {
    let mut circuit = Circuit::new(rt.alloc());
    let (root, _) = choice(&mut circuit)?;
    let text = least_inputs(rt.alloc(), &circuit, root)?;
    assert_eq!(rt; text.as_str(), "001");
    Ok(())
}

/// Where the last part is ruled out, condition and first part have to be true.
#[test]
fn ite_chooses_the_first_part(rt: HostRuntime) -> Result<(), Fail> {
    let mut circuit = Circuit::new(rt.alloc());
    let (_, root) = choice(&mut circuit)?;
    let text = least_inputs(rt.alloc(), &circuit, root)?;
    assert_eq!(rt; text.as_str(), "110");
    Ok(())
}

/// Two equal numbers of two bits that are not 0 and 1.
fn equal_and_two(circuit: &mut Circuit) -> Result<Node, NoMemory>
    ensures { IfOk result (λ root. root < length circuit.new) }
{
    let bits = four_inputs(circuit)?;
    let same = circuit.equal(&[bits[0], bits[1]], &[bits[2], bits[3]])?;
    circuit.and(&[same, bits[0]])
}

/// Two equal numbers of two bits whose lower bits differ.
fn equal_and_apart(circuit: &mut Circuit) -> Result<Node, NoMemory>
    ensures { IfOk result (λ root. root < length circuit.new) }
{
    let bits = four_inputs(circuit)?;
    let same = circuit.equal(&[bits[0], bits[1]], &[bits[2], bits[3]])?;
    let not_last = circuit.not(bits[3])?;
    circuit.and(&[same, bits[1], not_last])
}

#[test]
fn equal_compares_the_higher_bits(rt: HostRuntime) -> Result<(), Fail> {
    let mut circuit = Circuit::new(rt.alloc());
    let root = equal_and_two(&mut circuit)?;
    let text = least_inputs(rt.alloc(), &circuit, root)?;
    assert_eq!(rt; text.as_str(), "1010");
    Ok(())
}

#[test]
fn equal_compares_the_lower_bits(rt: HostRuntime) -> Result<(), Fail> {
    let mut circuit = Circuit::new(rt.alloc());
    let root = equal_and_apart(&mut circuit)?;
    let text = least_inputs(rt.alloc(), &circuit, root)?;
    assert_eq!(rt; text.as_str(), "none");
    Ok(())
}

/// No bits at all, which are equal, beside four inputs that nothing needs.
fn equal_without_bits(circuit: &mut Circuit) -> Result<Node, NoMemory>
    ensures { IfOk result (λ root. root < length circuit.new) }
{
    four_inputs(circuit)?;
    circuit.equal(&[], &[])
}

#[test]
fn no_bits_are_equal(rt: HostRuntime) -> Result<(), Fail> {
    let mut circuit = Circuit::new(rt.alloc());
    let root = equal_without_bits(&mut circuit)?;
    let text = least_inputs(rt.alloc(), &circuit, root)?;
    assert_eq!(rt; text.as_str(), "0000");
    Ok(())
}

/// The choice made once more beside itself; how many nodes there were before and are there after.
fn made_twice(circuit: &mut Circuit) -> Result<(usize, usize), NoMemory> {
    let [condition, a, b] = three_inputs(circuit)?;
    circuit.ite(condition, a, b)?;
    circuit.and(&[a, b])?;
    let before = circuit.nodes();
    circuit.and(&[a, b])?;
    circuit.ite(condition, a, b)?;
    Ok((before, circuit.nodes()))
}

#[test]
fn a_gate_is_made_once(rt: HostRuntime) {
    let mut circuit = Circuit::new(rt.alloc());
    let counts = made_twice(&mut circuit);
    assert!(&rt; matches!(counts, Ok((5, 5))));
}

/// Two inputs, and that they differ.
fn differ(circuit: &mut Circuit) -> Result<Node, NoMemory>
    requires { circuit.old ≡ [] }
    ensures root { IfOk result (λ root. root < length circuit.new) }
    ensures inputs { OnOk result (input_count circuit.new ≡ 2) }
{
    let a = circuit.input()?;
    let b = circuit.input()?;
    let not_b = circuit.not(b)?;
    circuit.ite(a, not_b, b)
}

/// Three inputs of which the last and the first differ, and the second is true.
fn differ_within(alloc: Global, circuit: &mut Circuit) -> Result<Node, NoMemory>
    ensures { IfOk result (λ root. root < length circuit.new) }
{
    let mut inner = Circuit::new(alloc);
    let root = differ(&mut inner)?;
    let [x, y, z] = three_inputs(circuit)?;
    let roots = circuit.append(&inner, &[z, x], &[root])?;
    circuit.and(&[y, roots[0]])
}

#[test]
fn a_circuit_is_appended_over_nodes(rt: HostRuntime) -> Result<(), Fail> {
    let mut circuit = Circuit::new(rt.alloc());
    let root = differ_within(rt.alloc(), &mut circuit)?;
    let text = least_inputs(rt.alloc(), &circuit, root)?;
    assert_eq!(rt; text.as_str(), "011");
    Ok(())
}

#[test]
fn clauses_have_a_variable_a_node(rt: HostRuntime) -> Result<(), Fail> {
    let mut circuit = Circuit::new(rt.alloc());
    let root = goes_back(&mut circuit)?;
    let clauses = to_cnf(rt.alloc(), &circuit, root)?;
    assert_eq!(rt; clauses.vars(), 7);
    assert_eq!(rt; clauses.clauses().len(), 13);
    Ok(())
}

#[test]
fn laws_of_circuits() {
    gates_are_shared();
    gates_are_tests();
    clauses_are_circuits();
}
