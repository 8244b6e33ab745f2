ghost use Rattle.std.specs.Prelude.{◌≡◌, ◌<◌, ℕ, length, All};
ghost use Rattle.std.specs.List.{AllByRecursion};
ghost use Rattle.circuit.specs.Value.{parts_of};
ghost use Rattle.circuit.specs.Settled.{settled_at, settled_all, settled_any, settled_ite, settled_value};

use crate::gate::{Gate, Node};

/// What is settled of a gate, given what is settled of its parts.
pub(crate) fn settle_gate(gate: &Gate, table: &[Option<bool>], chosen: &[bool]) -> Option<bool>
    requires { AllByRecursion (λ part. part < length table.now) (parts_of gate.now) }
    ensures { result ≡ settled_value chosen.now table.now gate.now }
{
    match gate {
        Gate::Input(number) => chosen.get(*number).copied(),
        Gate::And(parts) => settle_all(parts.nodes(), table),
        Gate::Or(parts) => settle_any(parts.nodes(), table),
        Gate::Not(part) => table[part.place()].map(|value| !value),
        Gate::Ite(condition, a, b) => settle_ite(
            table[condition.place()],
            table[a.place()],
            table[b.place()],
        ),
    }
}

/// The part that the condition chooses; where it is not settled, what both parts agree on.
fn settle_ite(condition: Option<bool>, a: Option<bool>, b: Option<bool>) -> Option<bool>
    ensures { result ≡ settled_ite condition a b }
{
    match (condition, a, b) {
        (Some(true), _, _) => a,
        (Some(false), _, _) => b,
        (None, Some(true), Some(true)) => Some(true),
        (None, Some(false), Some(false)) => Some(false),
        (None, _, _) => None,
    }
}

/// True where all of the parts are; false as soon as one is.
fn settle_all(parts: &[Node], table: &[Option<bool>]) -> Option<bool>
    requires { All (λ part. part < length table.now) parts.now }
    ensures { result ≡ settled_all (settled_at table.now) parts.now }
{
    let mut all = Some(true);
    for part in parts {
        match table[part.place()] {
            Some(true) => {}
            Some(false) => return Some(false),
            None => all = None,
        }
    }
    all
}

/// False where all of the parts are; true as soon as one is.
fn settle_any(parts: &[Node], table: &[Option<bool>]) -> Option<bool>
    requires { All (λ part. part < length table.now) parts.now }
    ensures { result ≡ settled_any (settled_at table.now) parts.now }
{
    let mut any = Some(false);
    for part in parts {
        match table[part.place()] {
            Some(false) => {}
            Some(true) => return Some(true),
            None => any = None,
        }
    }
    any
}
