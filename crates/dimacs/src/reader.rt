ghost use Rattle.std.specs.Prelude.{◌≡◌, ◌⊎◌, IfOk, IfErr};
ghost use Rattle.dimacs.specs.Reading.{Reads, Refuses};

use crate::clauses::take_clauses;
use crate::fault::DimacsFault;
use crate::head::take_head;
use crate::words::Words;
use cnf::Cnf;
use std::alloc::Global;

/// Reads the text of a formula. A refusal has the line of the first word with which no text goes on, from 1, or the
/// number behind the last line where the text ends before its clauses do.
pub fn read_dimacs(alloc: Global, bytes: &[u8]) -> Result<Cnf, DimacsFault>
    ensures read { IfOk result (Reads bytes.now) }
    ensures refused { IfErr result
        (λ fault. (fault ≡ DimacsFault.NoMemory) ⊎ Refuses bytes.now fault) }
{
    let mut words = Words::of(bytes);
    let head = take_head(&mut words)?;
    take_clauses(alloc, head, &mut words)
}
