use crate::script::ScriptReason;
use std::alloc::AllocError;

/// Why a part is not read: the token at a place among all tokens is refused, or the end where none is there.
#[derive(Clone, Copy, Debug, PartialEq, Eq)]
pub enum Stop {
    Refused(usize, ScriptReason),
    NoMemory,
}

impl From<AllocError> for Stop {
    ghost use Rattle.query_lang.specs.declared.read.stop.Stop.TheVariants as stop;
    ghost use Rattle.std.specs.Prelude.{◌≡◌};

    ghost from_gives = { λ _ fault. fault ≡ stop.NoMemory };

    fn from(_: AllocError) -> Stop {
        Stop::NoMemory
    }
}
