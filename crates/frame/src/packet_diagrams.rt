ghost use Rattle.std.specs.Prelude.{◌≡◌, ◌&&◌, ◌-◌, ◌≤◌, not, false, IfOk, IsTrue, ℕ, length, if◌then◌else◌};
ghost use Rattle.bit_patterns.specs.Patterns.{agrees, within};
ghost use Rattle.decision_diagram.specs.Table.{Extends, HasValue, IsOf, IsTable, LooksFrom, choice, diagram};
ghost use Rattle.decision_diagram.specs.Tree.{leaf};
ghost use Rattle.decision_diagram.specs.Listing.{size};
ghost use Rattle.decision_diagram.specs.Meeting.{MeetOften, MeetSeldom};
ghost use Rattle.frame.specs.Bits.{end_bit, first_bit};
ghost use Rattle.frame.specs.PacketDiagrams.{IsBehind, Narrows};
ghost use Rattle.frame.specs.Scenario.{request_of};

use crate::NoMemory;
use crate::bits::field_place;
use decision_diagram::{Diagram, DiagramFault, Diagrams};
use sorted_logic::Field;
use std::alloc::{AllocError, Global};
use std::marker::Model;

/// Decision diagrams over the bits of a packet.
#[derive(Drop)]
pub(crate) struct PacketDiagrams {
    table: Diagrams,
}

impl Model for PacketDiagrams {
    ghost use Rattle.std.specs.Prelude.{◌≡◌};
    ghost use Rattle.decision_diagram.specs.Table.{Table};

    ghost Value = { Table };

    ghost view = { λ d. d.table };

    ghost invariant = { λ d. d.table.bits ≡ 126 };
}

impl PacketDiagrams {
    /// The leaves alone.
    pub(crate) fn new(alloc: Global) -> Result<PacketDiagrams, NoMemory> {
        let table = Diagrams::new(alloc, 126)?;
        Ok(PacketDiagrams { table })
    }

    /// The diagrams over bits that these are.
    pub(crate) fn table(&self) -> &Diagrams
        ensures table { result.now ≡ self.now }
        ensures bits { self.now.bits ≡ 126 }
    {
        &self.table
    }

    /// How many nodes there are.
    pub(crate) fn node_count(&self) -> usize
        ensures count { result ≡ length self.now.nodes }
        ensures sizes { (d : ℕ) → IsOf self.now d → size (diagram self.now d) ≤ result }
        ensures table { IsTable self.now }
        ensures bits { self.now.bits ≡ 126 }
    {
        self.table.node_count()
    }

    /// The diagram that has this value for all packets.
    pub(crate) fn leaf(&self, constant: bool) -> Diagram
        ensures within { IsOf self.now result }
        ensures leaf { diagram self.now result ≡ leaf constant }
    {
        self.table.leaf(constant)
    }

    /// The diagram that is true where the field agrees with the value on each bit that is 0 in the wildcard, and `other`
    /// is true.
    pub(crate) fn masked(
        &mut self,
        field: Field,
        value: u32,
        wildcard: u32,
        other: Diagram,
    ) -> Result<Diagram, NoMemory>
        requires { IsBehind self.old field other }
        ensures narrows { IfOk result (Narrows self.old self.new field
            (λ packet. agrees (request_of packet field) value wildcard) other) }
        ensures older { Extends self.old self.new }
    {
        let (first, width) = field_place(field);
        made(self.table.masked(first, width, u128::from(value), u128::from(wildcard), other))
    }

    /// The same where the field does not agree with the value.
    pub(crate) fn unmasked(
        &mut self,
        field: Field,
        value: u32,
        wildcard: u32,
        other: Diagram,
    ) -> Result<Diagram, NoMemory>
        requires { IsBehind self.old field other }
        ensures narrows { IfOk result (Narrows self.old self.new field
            (λ packet. not (agrees (request_of packet field) value wildcard)) other) }
        ensures older { Extends self.old self.new }
    {
        let always = self.leaf(true);
        let same = self.masked(field, value, wildcard, always)?;
        let never = self.leaf(false);
        let whole = self.ite(same, never, other)?;
        Ok(whole)
    }

    /// The diagram that is true where the field is from `low` to `high`, both included, and `other` is true.
    pub(crate) fn within(
        &mut self,
        field: Field,
        low: u32,
        high: u32,
        other: Diagram,
    ) -> Result<Diagram, NoMemory>
        requires { IsBehind self.old field other }
        ensures narrows { IfOk result (Narrows self.old self.new field
            (λ packet. within low high (request_of packet field)) other) }
        ensures older { Extends self.old self.new }
    {
        let (first, width) = field_place(field);
        made(
            self.table
                .range(first, width, u128::from(low), u128::from(high), other),
        )
    }

    /// If then else.
    pub(crate) fn ite(
        &mut self,
        condition: Diagram,
        yes: Diagram,
        other: Diagram,
    ) -> Result<Diagram, NoMemory>
        requires condition { IsOf self.old condition }
        requires yes { IsOf self.old yes }
        requires other { IsOf self.old other }
        ensures value { IfOk result (HasValue self.new (choice self.old condition yes other)) }
        ensures from { IfOk result (λ d. (first : ℕ) → LooksFrom self.old first condition
            → LooksFrom self.old first yes → LooksFrom self.old first other
            → LooksFrom self.new first d) }
        ensures older { Extends self.old self.new }
    {
        made(self.table.ite(condition, yes, other))
    }

    /// A diagram and its nodes in a table of their own.
    pub(crate) fn alone(
        &self,
        alloc: Global,
        root: Diagram,
    ) -> Result<(PacketDiagrams, Diagram), NoMemory>
        requires { IsOf self.now root }
        ensures within { IfOk result (λ alone. IsOf alone.0 alone.1) }
        ensures same { IfOk result (λ alone.
            diagram alone.0 alone.1 ≡ diagram self.now root) }
        ensures count { IfOk result (λ alone.
            length alone.0.nodes ≡ size (diagram self.now root)) }
    {
        let (table, root) = self.table.alone(alloc, root)?;
        Ok((PacketDiagrams { table }, root))
    }

    /// The diagram of another table, in this one.
    pub(crate) fn adopt(
        &mut self,
        alloc: Global,
        other: &PacketDiagrams,
        root: Diagram,
    ) -> Result<Diagram, NoMemory>
        requires { IsOf other.now root }
        ensures within { IfOk result (IsOf self.new) }
        ensures same { IfOk result (λ copy. diagram self.new copy ≡ diagram other.now root) }
        ensures older { Extends self.old self.new }
    {
        made(self.table.adopt(alloc, other.table(), root))
    }

    /// Whether two diagrams meet at no more than so many pairs of parts.
    pub(crate) fn meet_seldom(
        &self,
        alloc: Global,
        a: Diagram,
        b: Diagram,
        most: usize,
    ) -> Result<bool, NoMemory>
        requires a { IsOf self.now a }
        requires b { IsOf self.now b }
        ensures seldom { IfOk result (λ seldom. IsTrue seldom
            → MeetSeldom most (diagram self.now a) (diagram self.now b)) }
        ensures often { IfOk result (λ seldom. seldom ≡ false
            → MeetOften most (diagram self.now a) (diagram self.now b)) }
    {
        self.table.meet_seldom(alloc, a, b, most)
    }
}

/// A table that is full is too much to be kept in memory: its nodes are those of one step over a small diagram.
fn made(diagram: Result<Diagram, DiagramFault>) -> Result<Diagram, NoMemory>
    ensures { IfOk result (λ d. diagram ≡ Ok d) }
{
    match diagram {
        Ok(diagram) => Ok(diagram),
        Err(_) => Err(AllocError),
    }
}
