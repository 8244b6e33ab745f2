ghost use Rattle.std.specs.Prelude.{◌≡◌, false, IfOk, IsTrue, OnOk};
ghost use Rattle.decision_diagram.specs.Table.{IsOf, diagram};
ghost use Rattle.decision_diagram.specs.Meeting.{MeetOften, MeetSeldom};
ghost use Rattle.decision_diagram.specs.Inside.Meeting.{AreBehind, IsKept, StaysMet};

use crate::NoMemory;
use crate::diagrams::Diagrams;
use crate::node::Diagram;
use indexmap::IndexSet;
use std::alloc::Global;

impl Diagrams {
    /// Whether two diagrams meet at no more than so many pairs of parts when both are gone down at once. A choice between
    /// them takes a step for each such pair.
    pub fn meet_seldom(
        &self,
        alloc: Global,
        a: Diagram,
        b: Diagram,
        most: usize,
    ) -> Result<bool, NoMemory>
        requires a { IsOf self.now a }
        requires b { IsOf self.now b }
        ensures seldom { IfOk result (λ seldom. IsTrue seldom
            → MeetSeldom most (diagram self.now a) (diagram self.now b)) }
        ensures often { IfOk result (λ seldom. seldom ≡ false
            → MeetOften most (diagram self.now a) (diagram self.now b)) }
    {
        // A table has each diagram once, so pairs that differ have trees that differ.
        let _ = self.bits();
        let mut pairs = IndexSet::new(alloc);
        pairs.insert((a, b))?;
        let mut next = 0;
        while next < pairs.len() {
            if pairs.len() > most {
                return Ok(false);
            }
            let (c, d) = pairs.as_slice()[next];
            self.meet_behind(&mut pairs, c, d)?;
            next += 1;
        }
        Ok(true)
    }

    /// Puts in the pairs at which two diagrams meet behind the first bit that one of them looks at. Two leaves go on with
    /// themselves.
    fn meet_behind(
        &self,
        pairs: &mut IndexSet<(Diagram, Diagram)>,
        a: Diagram,
        b: Diagram,
    ) -> Result<(), NoMemory>
        requires a { IsOf self.now a }
        requires b { IsOf self.now b }
        ensures met { OnOk result (StaysMet self.now a b pairs.old.keys pairs.new.keys) }
        ensures behind { OnOk result (AreBehind self.now pairs.new.keys a b) }
        ensures older { OnOk result (IsKept pairs.old.keys pairs.new.keys) }
    {
        let bit = self.bit_of(a).min(self.bit_of(b));
        let (a_low, a_high) = self.ends_at(bit, a);
        let (b_low, b_high) = self.ends_at(bit, b);
        pairs.insert((a_low, b_low))?;
        pairs.insert((a_high, b_high))?;
        Ok(())
    }
}
