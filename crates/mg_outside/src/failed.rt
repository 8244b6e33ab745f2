ghost use Rattle.std.specs.Prelude.{◌≡◌, ◌+◌, ◌≤◌, Ok, IfOk, IsOk, OnOk, OnErr};
ghost use Rattle.mg_outside.specs.Faults.{Rose};

/// That the system refused a call, which was counted.
#[derive(Clone, Copy, Debug, Drop, PartialEq, Eq)]
pub struct Failed;

/// The system's answer, whose refusal is counted.
pub(crate) fn counted<T: Drop, E: Drop>(answer: Result<T, E>, faults: &mut u64) -> Result<T, Failed>
    ensures ok { IfOk answer (λ value. result ≡ Ok value) }
    ensures err { OnOk result (IsOk answer) }
    ensures failed { OnErr result (Rose faults.old faults.new) }
    ensures no_fault { OnOk result (faults.new ≡ faults.old) }
    ensures at_most_one { faults.new ≤ faults.old + 1 }
    ensures later { faults.old ≤ faults.new }
{
    match answer {
        Ok(value) => Ok(value),
        Err(_) => {
            *faults = faults.saturating_add(1);
            Err(Failed)
        }
    }
}
