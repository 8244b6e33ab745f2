ghost use Rattle.std.specs.Prelude.{◌≡◌};

use crate::reason::IosReason;
use std::alloc::AllocError;

/// Why a line is not read.
#[derive(Debug, Drop)]
pub enum LineFault {
    Refused(IosReason),
    NoMemory,
}

impl From<AllocError> for LineFault {
    ghost use Rattle.ios_lex.specs.declared.fault.LineFault.TheVariants.{NoMemory};

    ghost from_gives = { λ _ fault. fault ≡ NoMemory };

    fn from(_: AllocError) -> LineFault {
        LineFault::NoMemory
    }
}
