ghost use Rattle.std.specs.Prelude.{◌≡◌, ◌++◌, ◌≤◌, length, IfOk};
ghost use Rattle.ios_lex.specs.Phrases.{Words};
ghost use Rattle.ios_nat.specs.declared.kind.Kind.{Kind as KindOf};
ghost use Rattle.ios_nat.specs.Faults as faults;
ghost use Rattle.ios_nat.specs.Grammar.{opening_words};
ghost use Rattle.ios_nat.specs.Reading.{IsRefused};
ghost use Rattle.ios_nat.specs.Refusal as specs;
ghost use Rattle.ios_nat.specs.Table.{Table};

use crate::kind::Kind;
use crate::openings::other_source;
use ios_lex::{IosReason, Stop, Word, stop_reason, unmodelled};
use std::alloc::{AllocError, Global};

/// Why a line is not read into a table.
#[derive(Debug, Drop)]
pub enum NatFault {
    Refused(IosReason),
    NoMemory,
}

impl From<AllocError> for NatFault {
    ghost use Rattle.ios_nat.specs.declared.fault.NatFault.TheVariants.{NoMemory};

    ghost from_gives = { λ _ fault. fault ≡ NoMemory };

    fn from(_: AllocError) -> NatFault {
        NatFault::NoMemory
    }
}

/// The place of a pool's mask behind the opening of its line.
const MASK_PLACE: usize = 4;

/// The reason at this place where only a lax line goes on.
fn lax_reason(place: usize) -> IosReason
    ensures { result ≡ specs.lax_reason place }
{
    if place == MASK_PLACE {
        IosReason::BadMask
    } else {
        IosReason::BadEntry
    }
}

/// The reason of a stop in the words behind the opening of a line of this kind.
pub(crate) fn rest_reason(
    alloc: Global,
    kind: Kind,
    words: &[Word],
    stop: Stop,
) -> Result<IosReason, AllocError>
    requires { stop.left ≤ length words.now }
    ensures { IfOk result (λ why. why ≡ faults.rest_reason kind words.now stop) }
{
    let place = words.len() - stop.left;
    stop_reason(alloc, words, stop, kind.unmodelled(), lax_reason(place))
}

/// The reason of a line of none of the kinds.
pub(crate) fn unopened(alloc: Global, words: &[Word]) -> Result<IosReason, AllocError>
    requires { (kind : KindOf) (rest : Words) → words.now ≡ opening_words kind ++ rest → ⊥ }
    ensures { (table : Table) → IfOk result (IsRefused table words.now) }
{
    match other_source(words) {
        Some(word) => unmodelled(alloc, word),
        None => Ok(IosReason::BadEntry),
    }
}
