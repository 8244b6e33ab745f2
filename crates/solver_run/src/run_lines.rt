ghost use Rattle.std.specs.Prelude.{◌≡◌, ◌++◌, codes, IfOk};
ghost use Rattle.std.specs.String.{string_bytes};
ghost use Rattle.solver_run.specs.RunLines.{accepted_line, fault_line, nodes_line, reason_words, refused_line, store_line};

use crate::reason::Reason;
use std::alloc::{AllocError, Global};

/// What is written where the words are not of the stated form.
pub const USAGE: &str =
    "usage: margrave_sat solve FILE [--certificate OUT] | check FILE CERTIFICATE | lists differ|widen FIRST SECOND | gates COUNT\n";

/// What is written of a file whose read failed.
#[tactic(auto, unfolding(crate::specs::RunLines::fault_line))]
pub fn fault_text(alloc: Global, file: &str) -> Result<String, AllocError>
    ensures { IfOk result (λ text. string_bytes text ≡ fault_line file.now) }
{
    format!(in alloc; "read fault: {file}\n")
}

/// What is written of a file that was not stored.
#[tactic(auto, unfolding(crate::specs::RunLines::store_line))]
pub fn store_text(alloc: Global, file: &str) -> Result<String, AllocError>
    ensures { IfOk result (λ text. string_bytes text ≡ store_line file.now) }
{
    format!(in alloc; "write fault: {file}\n")
}

/// What is written of a certificate that is accepted.
#[tactic(auto, unfolding(crate::specs::RunLines::accepted_line))]
pub fn accepted_text() -> &'static str
    ensures { result.now ≡ accepted_line }
{
    "accepted\n"
}

/// What is written of a circuit.
#[tactic(auto, unfolding(crate::specs::RunLines::nodes_line))]
pub fn nodes_text(alloc: Global, nodes: usize) -> Result<String, AllocError>
    ensures { IfOk result (λ text. string_bytes text ≡ nodes_line nodes) }
{
    format!(in alloc; "{nodes} nodes\n")
}

#[tactic(auto, unfolding(crate::specs::RunLines::reason_words))]
fn reason_text(alloc: Global, reason: Reason) -> Result<String, AllocError>
    ensures { IfOk result (λ text. string_bytes text ≡ reason_words reason) }
{
    match reason {
        Reason::TooLong => format!(in alloc; "TooLong"),
        Reason::Syntax => format!(in alloc; "Syntax"),
        Reason::TooMany => format!(in alloc; "TooMany"),
        Reason::Variable => format!(in alloc; "Variable"),
        Reason::Incomplete => format!(in alloc; "Incomplete"),
        Reason::Malformed => format!(in alloc; "Malformed"),
        Reason::Version => format!(in alloc; "Version"),
        Reason::StepVariable { step } => format!(in alloc; "Variable step {step}"),
        Reason::Hint { step, place } => format!(in alloc; "Hint step {step} place {place}"),
        Reason::Deletion { item, place } => format!(in alloc; "Deletion item {item} place {place}"),
        Reason::NotEmpty => format!(in alloc; "NotEmpty"),
        Reason::NoConfiguration => format!(in alloc; "NoConfiguration"),
        Reason::NotOneList => format!(in alloc; "NotOneList"),
    }
}

/// What is written of a text that is refused, at this line of this file.
#[tactic(auto, unfolding(crate::specs::RunLines::refused_line))]
pub fn refused_text(
    alloc: Global,
    file: &str,
    line: u64,
    reason: Reason,
) -> Result<String, AllocError>
    ensures { IfOk result (λ text. string_bytes text ≡ refused_line file.now line reason) }
{
    let words = reason_text(alloc, reason)?;
    let words = words.as_str();
    format!(in alloc; "refused: {file}:{line}: {words}\n")
}
