ghost use Rattle.std.specs.Prelude.{◌≡◌, ◌⊎◌, IfOk, IfErr};
ghost use Rattle.certificates.specs.Reading.{Reads, Refuses};

use crate::derivation::{Certificate, Derivation};
use crate::fault::CertFault;
use crate::head::{FoundHead, find_head, head_numbers};
use crate::items::items;
use std::alloc::Global;

/// Reads the text of a certificate, in version 1 or 2. What stands before its first line that begins with
/// `margrave-proof ` and behind its line `qed` is not looked at. A refusal has the first line that no certificate has
/// there, from 1, or the number behind the last line where one is missing.
pub fn read_certificate(alloc: Global, bytes: &[u8]) -> Result<Certificate, CertFault>
    ensures read { IfOk result (Reads bytes.now) }
    ensures refused { IfErr result
        (λ fault. (fault ≡ CertFault.NoMemory) ⊎ Refuses bytes.now fault) }
{
    let head = match find_head(bytes) {
        Ok(head) => head,
        Err(line) => return Err(CertFault::Malformed { line }),
    };
    let line = head.number;
    let Some((version, question)) = head_numbers(head.words) else {
        return Err(CertFault::Malformed { line });
    };
    if version != 1 && version != 2 {
        return Err(CertFault::Version { line });
    }
    let items = items(alloc, version, line + 1, head.behind)?;
    Ok(Certificate {
        line: question,
        derivation: Derivation::of(items),
    })
}
