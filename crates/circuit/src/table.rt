ghost use Rattle.std.specs.Prelude.{◌≡◌, ◌<◌, None, length, replicate, IfOk};
ghost use Rattle.std.specs.List.{AllZip};
ghost use Rattle.circuit.specs.Value.{IsCircuit};
ghost use Rattle.circuit.specs.Settled.{settled, StaysSettled};

use crate::NoMemory;
use crate::gate::Gate;
use crate::settled::settle_gate;
use std::alloc::Global;
use std::marker::Model;

/// What is settled of each node.
#[derive(Drop)]
pub(crate) struct Table {
    values: Vec<Option<bool>>,
    /// The places of the nodes of which nothing is settled, in order.
    unsettled: Vec<usize>,
}

impl Model for Table {
    ghost use Rattle.std.specs.Prelude.{List, Option, Bool};
    ghost use Rattle.circuit.specs.Settled.{HasUnsettled};

    ghost Value = { List (Option Bool) };

    ghost view = { λ t. t.values.items };

    ghost invariant = { λ t. HasUnsettled t.values.items t.unsettled.items };
}

impl Table {
    /// A table of so many nodes of which nothing is settled.
    pub(crate) fn blank(alloc: Global, count: usize) -> Result<Table, NoMemory>
        ensures { IfOk result (λ table. table ≡ replicate count None) }
    {
        let values = vec![in alloc; None; count]?;
        let mut unsettled = Vec::with_capacity(alloc, count)?;
        for place in 0..count {
            unsettled.push(place)?;
        }
        Ok(Table { values, unsettled })
    }

    /// What is settled of each node, in order.
    pub(crate) fn values(&self) -> &[Option<bool>]
        ensures { result.now ≡ self.now }
    {
        self.values.as_slice()
    }

    /// What the values of the first inputs settle. Only nodes of which nothing was settled are evaluated again.
    pub(crate) fn settle(
        &self,
        alloc: Global,
        gates: &[Gate],
        chosen: &[bool],
    ) -> Result<Table, NoMemory>
        requires circuit { IsCircuit gates.now }
        requires kept { AllZip StaysSettled self.now (settled gates.now chosen.now) }
        ensures { IfOk result (λ next. next ≡ settled gates.now chosen.now) }
    {
        let mut values = Vec::from_slice(alloc, self.values.as_slice())?;
        let mut unsettled = Vec::new(alloc);
        for place in self.unsettled.as_slice() {
            let value = settle_gate(&gates[*place], values.as_slice(), chosen);
            values[*place] = value;
            if value.is_none() {
                unsettled.push(*place)?;
            }
        }
        Ok(Table { values, unsettled })
    }
}
