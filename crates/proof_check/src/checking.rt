ghost use Rattle.std.specs.Prelude.{◌≡◌, ◌+◌, ◌<◌, ◌^◌, IfOk, OnOk, OnErr};
ghost use Rattle.proof_check.specs.Derivations.{Judges, at_first, fault_of, step_fault};
ghost use Rattle.proof_check.specs.Inside.Judging.{after_item, item_fault};
ghost use Rattle.certificates.specs.declared.derivation.Item.TheVariants as items;

use crate::fault::CheckFault;
use crate::live::LiveClauses;
use crate::step::step_fault;
use crate::table::Table;
use certificates::{Derivation, Item, Numbers, Step};
use cnf::{Cnf, NoMemory, are_in_range};
use std::alloc::Global;
use std::marker::Model;

/// The clauses that may be named, as items come and go.
#[derive(Drop)]
struct Checker<'a> {
    live: LiveClauses<'a>,
    /// Nothing is known in it between two items.
    table: Table,
    items: usize,
    steps: usize,
    /// Whether some step had the empty clause.
    refuted: bool,
}

impl<'a> Model for Checker<'a> {
    ghost use Rattle.std.specs.Prelude.{◌≡◌, ◌≤◌, None, length, replicate};
    ghost use Rattle.proof_check.specs.Inside.Each.{LiveInRange};
    ghost use Rattle.proof_check.specs.Inside.Judging.{Checking};

    ghost Value = { Checking };

    ghost view = { λ c. record {
      vars = length c.table;
      progress = record {
        live = c.live;
        items = c.items;
        steps = c.steps;
        refuted = c.refuted;
      };
    } };

    ghost invariant = { λ c. record {
      blank : c.table ≡ replicate (length c.table) None;
      in_range : LiveInRange (length c.table) c.live;
      steps : c.steps ≤ c.items;
    } };
}

impl<'a> Checker<'a> {
    /// The checker of so many items over a formula. It takes all memory that it needs.
    fn new(alloc: Global, cnf: &'a Cnf, items: usize) -> Result<Checker<'a>, NoMemory>
        ensures { IfOk result (λ checker. checker
            ≡ record { vars = cnf.now.vars; progress = at_first cnf.now.clauses }) }
    {
        let live = LiveClauses::given(alloc, cnf.clauses(), items)?;
        let table = Table::new(alloc, cnf.vars())?;
        Ok(Checker {
            live,
            table,
            items: 0,
            steps: 0,
            refuted: false,
        })
    }

    fn take(&mut self, item: &'a Item) -> Result<(), CheckFault>
        requires { self.old.progress.items + 1 < 2 ^ 64 }
        ensures fault { Judges (item_fault self.old item.now) result }
        ensures after { OnOk result (self.new ≡ after_item self.old item.now) }
    {
        match item {
            Item::Add(step) => self.add(step),
            Item::Delete(numbers) => self.delete(numbers),
        }
    }

    fn add(&mut self, step: &'a Step) -> Result<(), CheckFault>
        requires { self.old.progress.items + 1 < 2 ^ 64 }
        ensures fault { Judges (item_fault self.old (items.Add step.now)) result }
        ensures after { OnOk result (self.new ≡ after_item self.old (items.Add step.now)) }
    {
        let number = self.steps + 1;
        if !are_in_range(self.table.len(), step.clause.lits()) {
            return Err(CheckFault::VarRange { step: number });
        }
        if let Some(place) = step_fault(&mut self.table, &self.live, step) {
            return Err(CheckFault::Hint {
                step: number,
                place,
            });
        }
        self.live.push(step.clause.lits())?;
        self.refuted |= step.clause.lits().is_empty();
        self.steps = number;
        self.items += 1;
        Ok(())
    }

    fn delete(&mut self, numbers: &Numbers) -> Result<(), CheckFault>
        requires { self.old.progress.items + 1 < 2 ^ 64 }
        ensures fault { Judges (item_fault self.old (items.Delete numbers.now)) result }
        ensures after { OnOk result (self.new ≡ after_item self.old (items.Delete numbers.now)) }
    {
        let number = self.items + 1;
        if let Some(place) = self.live.delete_all(numbers.as_slice()) {
            return Err(CheckFault::NotLive {
                item: number,
                place,
            });
        }
        self.items = number;
        Ok(())
    }
}

/// Whether the derivation is accepted over the clauses; else its first fault. All memory is taken before the first item.
pub fn check(alloc: Global, cnf: &Cnf, derivation: &Derivation) -> Result<(), CheckFault>
    ensures { Judges (fault_of cnf.now.vars cnf.now.clauses derivation.now) result }
{
    let items = derivation.items();
    let mut checker = Checker::new(alloc, cnf, items.len())?;
    for item in items {
        checker.take(item)?;
    }
    if checker.refuted {
        Ok(())
    } else {
        Err(CheckFault::NotEmpty)
    }
}
