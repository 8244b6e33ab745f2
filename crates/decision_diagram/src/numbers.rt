ghost use Rattle.std.specs.Prelude.{◌≡◌, ◌<◌, ◌≤◌, ◌+◌, ◌*◌, ◌&&◌, ◌||◌, Err, IfOk, length};
ghost use Rattle.std.specs.Bool.{beq};
ghost use Rattle.bit_patterns.specs.Patterns.{agrees, within};
ghost use Rattle.decision_diagram.specs.declared.diagrams.TheConstants.{MOST_NODES};
ghost use Rattle.decision_diagram.specs.declared.fault.DiagramFault.TheVariants as fault;
ghost use Rattle.decision_diagram.specs.Table.{Extends, HasValue, IsOf, LooksFrom, value_in};
ghost use Rattle.decision_diagram.specs.Tests.{number_of};
ghost use Rattle.decision_diagram.specs.Inside.Numbers.{AreWidened, IsBehind, above_by, below_by, both_by};
ghost use Rattle.circuit.specs.Value.{value_at};

use crate::diagrams::Diagrams;
use crate::digits::{agree_above, digit, greatest};
use crate::fault::DiagramFault;
use crate::node::Diagram;

impl Diagrams {
    /// The diagram with the value of `then` where the number of `width` bits, the one at `first` the heaviest, agrees
    /// with the value on each bit that is 0 in the wildcard, and false elsewhere. There are at most 128 of these bits,
    /// and `then` looks at later ones.
    pub fn masked(
        &mut self,
        first: u32,
        width: u32,
        value: u128,
        wildcard: u128,
        then: Diagram,
    ) -> Result<Diagram, DiagramFault>
        requires few { width ≤ 128 }
        requires bits { first + width ≤ self.old.bits }
        requires within { IsOf self.old then }
        requires later { LooksFrom self.old (first + width) then }
        ensures value { IfOk result (HasValue self.new (λ bits.
            agrees (number_of bits first width) value wildcard && value_in self.old then bits)) }
        ensures from { IfOk result (LooksFrom self.new first) }
        ensures few { length self.new.nodes ≤ length self.old.nodes + width }
        ensures older { Extends self.old self.new }
        ensures full { result ≡ Err fault.TooManyNodes → length self.new.nodes ≡ MOST_NODES }
    {
        if !agree_above(width, value, wildcard) {
            return Ok(self.leaf(false));
        }
        // The table's bits fit, and so do the sums.
        let _bits = self.bits();
        let mut diagram = then;
        for place in 0..width {
            let bit = first + (width - 1 - place);
            let is_free = digit(wildcard, place);
            diagram = self.bit_agrees(bit, digit(value, place), is_free, diagram)?;
        }
        Ok(diagram)
    }

    /// The diagram with the value of `then` where the number of `width` bits, the one at `first` the heaviest, is from
    /// `low` to `high`, both included, and false elsewhere. There are at most 128 of these bits, and `then` looks at
    /// later ones. An end above all numbers of the bits is allowed, and so are ends the wrong way round, between which
    /// there is no number.
    pub fn range(
        &mut self,
        first: u32,
        width: u32,
        low: u128,
        high: u128,
        then: Diagram,
    ) -> Result<Diagram, DiagramFault>
        requires few { width ≤ 128 }
        requires bits { first + width ≤ self.old.bits }
        requires within { IsOf self.old then }
        requires later { LooksFrom self.old (first + width) then }
        ensures value { IfOk result (HasValue self.new (λ bits.
            within low high (number_of bits first width) && value_in self.old then bits)) }
        ensures from { IfOk result (LooksFrom self.new first) }
        ensures few { length self.new.nodes ≤ length self.old.nodes + 3 * width }
        ensures older { Extends self.old self.new }
        ensures full { result ≡ Err fault.TooManyNodes → length self.new.nodes ≡ MOST_NODES }
    {
        let most = greatest(width);
        if low > most {
            return Ok(self.leaf(false));
        }
        let high = high.min(most);
        // The table's bits fit, and so do the sums.
        let _bits = self.bits();
        let mut bounded = Bounded {
            above: then,
            below: then,
            both: then,
        };
        for place in 0..width {
            let bit = first + (width - 1 - place);
            bounded = self.widened(bit, digit(low, place), digit(high, place), then, &bounded)?;
        }
        Ok(bounded.both)
    }

    /// The diagram with the value of `then` where the bit is the wanted one or is free, and false elsewhere.
    #[tactic(auto, using(crate::proofs::Extending::looks_earlier))]
    fn bit_agrees(
        &mut self,
        bit: u32,
        wanted: bool,
        is_free: bool,
        then: Diagram,
    ) -> Result<Diagram, DiagramFault>
        requires bit { bit < self.old.bits }
        requires within { IsOf self.old then }
        requires later { LooksFrom self.old (bit + 1) then }
        ensures value { IfOk result (HasValue self.new (λ bits.
            (is_free || beq (value_at bits bit) wanted) && value_in self.old then bits)) }
        ensures from { IfOk result (LooksFrom self.new bit) }
        ensures few { length self.new.nodes ≤ length self.old.nodes + 1 }
        ensures older { Extends self.old self.new }
        ensures full { result ≡ Err fault.TooManyNodes → length self.new.nodes ≡ MOST_NODES }
    {
        if is_free {
            return Ok(then);
        }
        self.bit_is(bit, wanted, then)
    }

    /// The diagram with the value of `then` where the bit is the wanted one, and false elsewhere.
    fn bit_is(&mut self, bit: u32, wanted: bool, then: Diagram) -> Result<Diagram, DiagramFault>
        requires bit { bit < self.old.bits }
        requires within { IsOf self.old then }
        requires later { LooksFrom self.old (bit + 1) then }
        ensures value { IfOk result (HasValue self.new (λ bits.
            beq (value_at bits bit) wanted && value_in self.old then bits)) }
        ensures from { IfOk result (LooksFrom self.new bit) }
        ensures few { length self.new.nodes ≤ length self.old.nodes + 1 }
        ensures older { Extends self.old self.new }
        ensures full { result ≡ Err fault.TooManyNodes → length self.new.nodes ≡ MOST_NODES }
    {
        let never = self.leaf(false);
        if wanted {
            let whole = self.branch(bit, never, then)?;
            Ok(whole)
        } else {
            let whole = self.branch(bit, then, never)?;
            Ok(whole)
        }
    }

    /// The three diagrams over one bit more, above those that they are over, given its digits in both ends.
    fn widened(
        &mut self,
        bit: u32,
        low: bool,
        high: bool,
        then: Diagram,
        bounded: &Bounded,
    ) -> Result<Bounded, DiagramFault>
        requires bit { bit < self.old.bits }
        requires then { IsBehind self.old bit then }
        requires above { IsBehind self.old bit bounded.now.above }
        requires below { IsBehind self.old bit bounded.now.below }
        requires both { IsBehind self.old bit bounded.now.both }
        ensures widened { IfOk result (AreWidened self.old self.new bit low high then bounded.now) }
        ensures few { length self.new.nodes ≤ length self.old.nodes + 3 }
        ensures older { Extends self.old self.new }
        ensures full { result ≡ Err fault.TooManyNodes → length self.new.nodes ≡ MOST_NODES }
    {
        let above = self.above_bit(bit, low, bounded.above, then)?;
        let below = self.below_bit(bit, high, bounded.below, then)?;
        let both = self.both_bits(bit, low, high, bounded)?;
        Ok(Bounded { above, below, both })
    }

    /// `above` over one bit more: where the digit of the low end is 0, a bit that is 1 decides.
    fn above_bit(
        &mut self,
        bit: u32,
        low: bool,
        above: Diagram,
        then: Diagram,
    ) -> Result<Diagram, DiagramFault>
        requires bit { bit < self.old.bits }
        requires above { IsBehind self.old bit above }
        requires then { IsBehind self.old bit then }
        ensures value { IfOk result (HasValue self.new (λ bits. above_by low (value_at bits bit)
            (value_in self.old above bits) (value_in self.old then bits))) }
        ensures from { IfOk result (LooksFrom self.new bit) }
        ensures few { length self.new.nodes ≤ length self.old.nodes + 1 }
        ensures older { Extends self.old self.new }
        ensures full { result ≡ Err fault.TooManyNodes → length self.new.nodes ≡ MOST_NODES }
    {
        let never = self.leaf(false);
        if low {
            let whole = self.branch(bit, never, above)?;
            Ok(whole)
        } else {
            let whole = self.branch(bit, above, then)?;
            Ok(whole)
        }
    }

    /// `below` over one bit more: where the digit of the high end is 1, a bit that is 0 decides.
    fn below_bit(
        &mut self,
        bit: u32,
        high: bool,
        below: Diagram,
        then: Diagram,
    ) -> Result<Diagram, DiagramFault>
        requires bit { bit < self.old.bits }
        requires below { IsBehind self.old bit below }
        requires then { IsBehind self.old bit then }
        ensures value { IfOk result (HasValue self.new (λ bits. below_by high (value_at bits bit)
            (value_in self.old below bits) (value_in self.old then bits))) }
        ensures from { IfOk result (LooksFrom self.new bit) }
        ensures few { length self.new.nodes ≤ length self.old.nodes + 1 }
        ensures older { Extends self.old self.new }
        ensures full { result ≡ Err fault.TooManyNodes → length self.new.nodes ≡ MOST_NODES }
    {
        let never = self.leaf(false);
        if high {
            let whole = self.branch(bit, then, below)?;
            Ok(whole)
        } else {
            let whole = self.branch(bit, below, never)?;
            Ok(whole)
        }
    }

    /// `both` over one bit more: where the digits differ, one end is left on each side of the bit, or no number at all.
    fn both_bits(
        &mut self,
        bit: u32,
        low: bool,
        high: bool,
        bounded: &Bounded,
    ) -> Result<Diagram, DiagramFault>
        requires bit { bit < self.old.bits }
        requires above { IsBehind self.old bit bounded.now.above }
        requires below { IsBehind self.old bit bounded.now.below }
        requires both { IsBehind self.old bit bounded.now.both }
        ensures value { IfOk result (HasValue self.new (λ bits. both_by low high (value_at bits bit)
            (value_in self.old bounded.now.above bits) (value_in self.old bounded.now.below bits)
            (value_in self.old bounded.now.both bits))) }
        ensures from { IfOk result (LooksFrom self.new bit) }
        ensures few { length self.new.nodes ≤ length self.old.nodes + 1 }
        ensures older { Extends self.old self.new }
        ensures full { result ≡ Err fault.TooManyNodes → length self.new.nodes ≡ MOST_NODES }
    {
        let never = self.leaf(false);
        match (low, high) {
            (false, false) => {
                let whole = self.branch(bit, bounded.both, never)?;
                Ok(whole)
            }
            (true, true) => {
                let whole = self.branch(bit, never, bounded.both)?;
                Ok(whole)
            }
            (false, true) => {
                let whole = self.branch(bit, bounded.above, bounded.below)?;
                Ok(whole)
            }
            (true, false) => Ok(never),
        }
    }
}

/// Three diagrams over the lowest bits of a number, given as many of each end of a range. Each has the value of one more
/// diagram where its test holds, and is false elsewhere.
#[derive(Drop)]
struct Bounded {
    /// The number is not below the low end.
    above: Diagram,
    /// The number is not above the high end.
    below: Diagram,
    /// Both.
    both: Diagram,
}
