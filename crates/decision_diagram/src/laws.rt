ghost use Rattle.std.specs.Prelude.{◌≡◌, ◌≤◌, ℕ, List, Bool, map, length};
ghost use Rattle.circuit.specs.declared.gate.Gate.{Gate};
ghost use Rattle.circuit.specs.Value.{AreNodes, IsCircuit, value as node_value};
ghost use Rattle.decision_diagram.specs.Tree.{Tree, IsReduced, SameValue, value};
ghost use Rattle.decision_diagram.specs.Listing.{listing, root_of};
ghost use Rattle.decision_diagram.specs.Guarded.{guarded};

/// Two ordered and reduced diagrams with the same value for all values of their bits are one.
pub fn equal_diagrams_are_one()
    ensures { (count : ℕ) (a b : Tree) → IsReduced 0 count a → IsReduced 0 count b
        → SameValue count a b → a ≡ b }
{}

/// What a diagram's nodes are, and in which order, is a function of its values.
pub fn listings_are_one()
    ensures { (count : ℕ) (a b : Tree) → IsReduced 0 count a → IsReduced 0 count b
        → SameValue count a b → listing a ≡ listing b }
{}

/// The guarded gates of a diagram have its value, in each circuit and for all inputs.
pub fn gates_have_the_value()
    ensures { (gates : List Gate) (bits : List ℕ) (count : ℕ) (t : Tree) (inputs : List Bool)
        → IsCircuit gates → AreNodes gates bits → count ≤ length bits → IsReduced 0 count t
        → let guarded_gates = guarded gates bits t in
        node_value guarded_gates.gates inputs guarded_gates.node
        ≡ value t (map (node_value gates inputs) bits) }
{}
