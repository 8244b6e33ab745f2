ghost use Rattle.std.specs.Prelude.{◌≡◌, ◌≤◌, length, IfOk};
ghost use Rattle.ios_interface.specs.Faults as faults;
ghost use Rattle.ios_interface.specs.Refusal as specs;

use crate::kind::Kind;
use ios_lex::{IosReason, Stop, Word, stop_reason};
use std::alloc::{AllocError, Global};

/// The reason in a line of this kind where only a lax line goes on.
fn lax_reason(kind: Kind) -> IosReason
    ensures { result ≡ specs.lax_reason kind }
{
    match kind {
        Kind::Address => IosReason::BadMask,
        Kind::AccessGroup | Kind::Setting(_) => IosReason::BadEntry,
    }
}

/// The reason of a stop in the words behind the opening of a line of this kind.
pub(crate) fn rest_reason(
    alloc: Global,
    kind: Kind,
    words: &[Word],
    stop: Stop,
) -> Result<IosReason, AllocError>
    requires { stop.left ≤ length words.now }
    ensures { IfOk result (λ why. why ≡ faults.rest_reason kind words.now stop) }
{
    stop_reason(alloc, words, stop, &[], lax_reason(kind))
}
