ghost use Rattle.std.specs.Prelude.{◌≡◌, Some, None, Err, OnOk, if◌then◌else◌};
ghost use Rattle.std.specs.HashMap.{get};
ghost use Rattle.decision_diagram.specs.declared.fault.DiagramFault.TheVariants as fault;
ghost use Rattle.decision_diagram.specs.declared.memo.Choice.{Choice};
ghost use Rattle.decision_diagram.specs.Inside.Choice.{same_parts};

use crate::fault::DiagramFault;
use crate::node::Diagram;
use std::alloc::Global;
use std::collections::HashMap;

/// The parts of an if then else.
#[derive(PartialEq, Eq, Hash, Drop)]
pub(crate) struct Choice {
    pub(crate) condition: Diagram,
    pub(crate) yes: Diagram,
    pub(crate) other: Diagram,
}

/// Which diagram was made for which parts.
#[derive(Drop)]
pub(crate) struct Memo {
    known: HashMap<Choice, Diagram>,
}

impl Memo {
    pub(crate) fn new(alloc: Global) -> Memo
        ensures { (parts : Choice) → get same_parts result.known parts ≡ None }
    {
        Memo {
            known: HashMap::new(alloc),
        }
    }

    pub(crate) fn find(&self, choice: &Choice) -> Option<Diagram>
        ensures { result ≡ get same_parts self.now.known choice.now }
    {
        self.known.get(choice).copied()
    }

    pub(crate) fn add(&mut self, choice: Choice, diagram: Diagram) -> Result<(), DiagramFault>
        ensures known { OnOk result ((parts : Choice) → get same_parts self.new.known parts
            ≡ (if same_parts choice parts then Some diagram
            else get same_parts self.old.known parts)) }
        ensures full { result ≡ Err fault.TooManyNodes → ⊥ }
    {
        self.known.insert(choice, diagram)?;
        Ok(())
    }
}
