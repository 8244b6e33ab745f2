ghost use Rattle.std.specs.Prelude.{◌≡◌, ◌<◌, ◌↔◌, ◌++◌, ◌==◌, ◌&&◌, nat_le, ℕ, Bool, true, false, List, [], ◌∷◌, Some, length, map, slice_get, Contains};
ghost use Rattle.circuit.specs.declared.gate.Gate.{Gate};
ghost use Rattle.bit_patterns.specs.Patterns.{agrees, within};
ghost use Rattle.circuit.specs.Number.{number};
ghost use Rattle.circuit.specs.Sharing.{found_or_added, made, node_of, same_gate};
ghost use Rattle.circuit.specs.Models.{BeginsLeast, HasModelsOf, HasOneCompletion};
ghost use Rattle.circuit.specs.Gates.{with_equal, with_masked, with_range};
ghost use Rattle.circuit.specs.Value.{AreNodes, Extends, Grows, IsCircuit, IsNext, gate_value, is_input, value as node_value, values};

/// What find or add means: a gate that is there is found at its place, and the circuit stays as it is; one that is not
/// there stands behind all others. The test for the same gate is equality.
pub fn gates_are_shared()
    ensures same { (a b : Gate) → (same_gate a b ≡ true) ↔ (a ≡ b) }
    ensures place { (gates : List Gate) (g : Gate) → Contains gates g
        → slice_get gates (node_of gates g) ≡ Some g }
    ensures found { (gates : List Gate) (g : Gate) → Contains gates g
        → found_or_added gates g ≡ made gates (node_of gates g) }
    ensures added { (gates : List Gate) (g : Gate) → (Contains gates g → ⊥)
        → found_or_added gates g ≡ made (gates ++ g ∷ []) (length gates) }
{}

/// What the nodes are worth that the calls of `Circuit` answer, for each circuit, whether or not a call has memory for
/// them: the node of a test is the test on the numbers of its bits, and older nodes keep their values.
pub fn gates_are_tests()
    ensures older { (old new : List Gate) → Grows old new → Extends old new }
    ensures gate { (gates : List Gate) (inputs : List Bool) (g : Gate)
        → IsCircuit gates → IsNext gates g → is_input g ≡ false
        → node_value (found_or_added gates g).gates inputs (found_or_added gates g).node
        ≡ gate_value inputs (values gates inputs) g }
    ensures masked { (gates : List Gate) (inputs : List Bool) (bits : List ℕ) (wanted wildcard : ℕ)
        → IsCircuit gates → AreNodes gates bits
        → let test = with_masked gates bits wanted wildcard in
        node_value test.gates inputs test.node
        ≡ agrees (number (map (node_value gates inputs) bits)) wanted wildcard }
    ensures range { (gates : List Gate) (inputs : List Bool) (bits : List ℕ) (lo hi : ℕ)
        → IsCircuit gates → AreNodes gates bits
        → let test = with_range gates bits lo hi in
        node_value test.gates inputs test.node
        ≡ within lo hi (number (map (node_value gates inputs) bits)) }
    ensures equal { (gates : List Gate) (inputs : List Bool) (a b : List ℕ) → IsCircuit gates
        → AreNodes gates a → AreNodes gates b → length a ≡ length b
        → let test = with_equal gates a b in
        node_value test.gates inputs test.node
        ≡ (number (map (node_value gates inputs) a) == number (map (node_value gates inputs) b)) }
{}

/// A circuit as clauses: the gates' clauses have just one completion of all inputs, and with the root's, their models are
/// the completions of the inputs that make the root true; the least begins with the least inputs.
pub fn clauses_are_circuits()
    ensures completion { (gates : List Gate) → IsCircuit gates → HasOneCompletion gates }
    ensures models { (gates : List Gate) (root : ℕ) → IsCircuit gates → root < length gates
        → HasModelsOf gates root }
    ensures least { (gates : List Gate) (root : ℕ) → IsCircuit gates → root < length gates
        → BeginsLeast gates root }
{}
