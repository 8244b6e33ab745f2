ghost use Rattle.std.specs.Prelude.{◌≡◌, ◌<◌, ◌&&◌, ◌||◌, not, ℕ, Err, IfOk, OnOk, MatchOption, length};
ghost use Rattle.std.specs.HashMap.{get};
ghost use Rattle.decision_diagram.specs.declared.diagrams.TheConstants.{MOST_NODES};
ghost use Rattle.decision_diagram.specs.declared.fault.DiagramFault.TheVariants as fault;
ghost use Rattle.decision_diagram.specs.Table.{Extends, HasValue, IsOf, LooksFrom, LooksFromThree, choice, value_in};
ghost use Rattle.decision_diagram.specs.Inside.Choice.{AreEnds, AreRemembered, IsChoice, IsFirst, first_in, same_parts};

use crate::diagrams::Diagrams;
use crate::fault::DiagramFault;
use crate::memo::{Choice, Memo};
use crate::node::{Diagram, Node};

impl Diagrams {
    /// If then else: the diagram with the value of `yes` where the condition is true, and of `other` where it is false.
    pub fn ite(
        &mut self,
        condition: Diagram,
        yes: Diagram,
        other: Diagram,
    ) -> Result<Diagram, DiagramFault>
        requires condition { IsOf self.old condition }
        requires yes { IsOf self.old yes }
        requires other { IsOf self.old other }
        ensures value { IfOk result (HasValue self.new (choice self.old condition yes other)) }
        ensures from { IfOk result (LooksFromThree self.old self.new condition yes other) }
        ensures older { Extends self.old self.new }
        ensures full { result ≡ Err fault.TooManyNodes → length self.new.nodes ≡ MOST_NODES }
    {
        let mut memo = Memo::new(self.alloc());
        self.choose(&mut memo, condition, yes, other)
    }

    /// The diagram that is true where both are.
    pub fn and(&mut self, a: Diagram, b: Diagram) -> Result<Diagram, DiagramFault>
        requires a { IsOf self.old a }
        requires b { IsOf self.old b }
        ensures value { IfOk result (HasValue self.new
            (λ bits. value_in self.old a bits && value_in self.old b bits)) }
        ensures from { IfOk result (λ d. (first : ℕ) → LooksFrom self.old first a
            → LooksFrom self.old first b → LooksFrom self.new first d) }
        ensures older { Extends self.old self.new }
        ensures full { result ≡ Err fault.TooManyNodes → length self.new.nodes ≡ MOST_NODES }
    {
        let never = self.leaf(false);
        self.ite(a, b, never)
    }

    /// The diagram that is true where one of the two is.
    pub fn or(&mut self, a: Diagram, b: Diagram) -> Result<Diagram, DiagramFault>
        requires a { IsOf self.old a }
        requires b { IsOf self.old b }
        ensures value { IfOk result (HasValue self.new
            (λ bits. value_in self.old a bits || value_in self.old b bits)) }
        ensures from { IfOk result (λ d. (first : ℕ) → LooksFrom self.old first a
            → LooksFrom self.old first b → LooksFrom self.new first d) }
        ensures older { Extends self.old self.new }
        ensures full { result ≡ Err fault.TooManyNodes → length self.new.nodes ≡ MOST_NODES }
    {
        let always = self.leaf(true);
        self.ite(a, always, b)
    }

    /// The diagram that is true where this one is false.
    pub fn not(&mut self, a: Diagram) -> Result<Diagram, DiagramFault>
        requires { IsOf self.old a }
        ensures value { IfOk result (HasValue self.new (λ bits. not (value_in self.old a bits))) }
        ensures from { IfOk result (λ d. (first : ℕ) → LooksFrom self.old first a
            → LooksFrom self.new first d) }
        ensures older { Extends self.old self.new }
        ensures full { result ≡ Err fault.TooManyNodes → length self.new.nodes ≡ MOST_NODES }
    {
        let never = self.leaf(false);
        let always = self.leaf(true);
        self.ite(a, never, always)
    }

    /// `ite` over what was made already.
    fn choose(
        &mut self,
        memo: &mut Memo,
        condition: Diagram,
        yes: Diagram,
        other: Diagram,
    ) -> Result<Diagram, DiagramFault>
        requires condition { IsOf self.old condition }
        requires yes { IsOf self.old yes }
        requires other { IsOf self.old other }
        requires memo { AreRemembered self.old (get same_parts memo.old.known) }
        ensures choice { IfOk result (IsChoice self.old self.new condition yes other) }
        ensures memo { OnOk result (AreRemembered self.new (get same_parts memo.new.known)) }
        ensures older { Extends self.old self.new }
        ensures full { result ≡ Err fault.TooManyNodes → length self.new.nodes ≡ MOST_NODES }
    {
        if let Some(simple) = self.simple_choice(condition, yes, other) {
            return Ok(simple);
        }
        let choice = Choice {
            condition,
            yes,
            other,
        };
        if let Some(found) = memo.find(&choice) {
            return Ok(found);
        }
        let bit = self.first_bit(condition, yes, other);
        let (condition_low, condition_high) = self.ends_at(bit, condition);
        let (yes_low, yes_high) = self.ends_at(bit, yes);
        let (other_low, other_high) = self.ends_at(bit, other);
        let low = self.choose(memo, condition_low, yes_low, other_low)?;
        let high = self.choose(memo, condition_high, yes_high, other_high)?;
        let whole = self.branch(bit, low, high)?;
        memo.add(choice, whole)?;
        Ok(whole)
    }

    /// The answer where no node has to be made: the condition is a leaf, or both sides are one.
    fn simple_choice(&self, condition: Diagram, yes: Diagram, other: Diagram) -> Option<Diagram>
        requires condition { IsOf self.now condition }
        requires yes { IsOf self.now yes }
        requires other { IsOf self.now other }
        ensures { MatchOption result (first_in self.now condition < self.now.bits)
            (IsChoice self.now self.now condition yes other) }
    {
        match self.node(condition) {
            Node::Leaf(true) => Some(yes),
            Node::Leaf(false) => Some(other),
            Node::Branch(_, _, _) => { if yes == other { Some(yes) } else { None } }
        }
    }

    /// The first bit that one of the three looks at.
    fn first_bit(&self, a: Diagram, b: Diagram, c: Diagram) -> u32
        requires a { IsOf self.now a }
        requires b { IsOf self.now b }
        requires c { IsOf self.now c }
        requires branch { first_in self.now a < self.now.bits }
        ensures { IsFirst self.now a b c result }
    {
        self.bit_of(a).min(self.bit_of(b)).min(self.bit_of(c))
    }

    /// The bit that a diagram looks at first, and one behind all where it looks at none.
    pub(crate) fn bit_of(&self, diagram: Diagram) -> u32
        requires { IsOf self.now diagram }
        ensures first { result ≡ first_in self.now diagram }
        ensures from { LooksFrom self.now result diagram }
    {
        match self.node(diagram) {
            Node::Leaf(_) => self.bits(),
            Node::Branch(bit, _, _) => bit,
        }
    }

    /// What a diagram goes on with where a bit is false, and where it is true. It looks at no bit before that one.
    pub(crate) fn ends_at(&self, bit: u32, diagram: Diagram) -> (Diagram, Diagram)
        requires within { IsOf self.now diagram }
        requires from { LooksFrom self.now bit diagram }
        ensures { AreEnds self.now bit diagram result.0 result.1 }
    {
        match self.node(diagram) {
            Node::Branch(first, low, high) if first == bit => (low, high),
            _ => (diagram, diagram),
        }
    }
}
