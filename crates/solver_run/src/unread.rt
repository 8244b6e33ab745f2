ghost use Rattle.std.specs.Prelude.{◌≡◌, ◌∷◌, [], ℕ, List, None, IfOk, IfErr, IfNone, IfSome, OnOk};
ghost use Rattle.std.specs.List.{filter};
ghost use Rattle.mg_outside.specs.Effects.{HasRead};
ghost use Rattle.mg_outside.specs.Reading.{Gives};
ghost use Rattle.solver_run.specs.Lists.{HoldsList, IsNoList, IsOnlyList, has_entries};
ghost use Rattle.solver_run.specs.Run.{HoldsCertificate, HoldsFormula, IsNoCertificate, IsNoFormula};
ghost use Rattle.solver_run.specs.TooLong.{IsTooLongAt, max_bytes};
ghost use Rattle.ios_acl.specs.List.{AccessList};
ghost use Rattle.solver_run.specs.Inside.Endings.{IsUnread};

use crate::reason::{Reason, dimacs_reason};
use certificates::{CertFault, Certificate, read_certificate};
use cnf::Cnf;
use dimacs::{DimacsFault, read_dimacs};
use ios_acl::Acl;
use ios_config::{ConfigFault, NameTable, read_config};
use mg_outside::{FileFault, Files};
use std::alloc::Global;

/// The most bytes of a file that is read: a text of twenty million clauses of two literals is as long.
const MAX_BYTES: u64 = 1 << 28;

/// Why a file gave no value.
#[derive(Clone, Copy, Debug, Drop)]
pub enum Unread {
    /// Its read failed.
    Failed,
    /// It was refused, at this line; 0 is the file as a whole.
    Refused { line: u64, reason: Reason },
    NoMemory,
}

/// The bytes of a file.
fn read_bytes<F: Files>(alloc: Global, file: &str, files: &mut F) -> Result<Vec<u8>, Unread>
    ensures same { (other : List ℕ) → F.holds files.new other ≡ F.holds files.old other }
    ensures gives { IfOk result (λ bytes. Gives (F.holds files.old file.now) max_bytes bytes.items) }
    ensures read { OnOk result
        (HasRead (F.log files.old) (F.log files.new) (file.now ∷ []) None) }
    ensures unread { IfErr result (IsUnread (IsTooLongAt (F.holds files.old file.now)) file.now
        (F.log files.old) (F.log files.new)) }
{
    match files.read(alloc, file, MAX_BYTES) {
        Ok(bytes) => Ok(bytes),
        Err(FileFault::Failed) => Err(Unread::Failed),
        Err(FileFault::TooLong { .. }) => Err(Unread::Refused {
            line: 0,
            reason: Reason::TooLong,
        }),
        Err(FileFault::NoMemory) => Err(Unread::NoMemory),
    }
}

/// The clauses in a file.
pub fn read_formula<F: Files>(alloc: Global, file: &str, files: &mut F) -> Result<Cnf, Unread>
    ensures same { (other : List ℕ) → F.holds files.new other ≡ F.holds files.old other }
    ensures holds { IfOk result (HoldsFormula (F.holds files.old) file.now) }
    ensures read { OnOk result
        (HasRead (F.log files.old) (F.log files.new) (file.now ∷ []) None) }
    ensures unread { IfErr result (IsUnread (IsNoFormula (F.holds files.old) file.now) file.now
        (F.log files.old) (F.log files.new)) }
{
    let bytes = read_bytes(alloc, file, files)?;
    match read_dimacs(alloc, bytes.as_slice()) {
        Ok(cnf) => Ok(cnf),
        Err(DimacsFault::At { line, reason }) => Err(Unread::Refused {
            line,
            reason: dimacs_reason(reason),
        }),
        Err(DimacsFault::NoMemory) => Err(Unread::NoMemory),
    }
}

/// The certificate in a file.
pub fn read_proof<F: Files>(alloc: Global, file: &str, files: &mut F) -> Result<Certificate, Unread>
    ensures same { (other : List ℕ) → F.holds files.new other ≡ F.holds files.old other }
    ensures holds { IfOk result (HoldsCertificate (F.holds files.old) file.now) }
    ensures read { OnOk result
        (HasRead (F.log files.old) (F.log files.new) (file.now ∷ []) None) }
    ensures unread { IfErr result (IsUnread (IsNoCertificate (F.holds files.old) file.now) file.now
        (F.log files.old) (F.log files.new)) }
{
    let bytes = read_bytes(alloc, file, files)?;
    match read_certificate(alloc, bytes.as_slice()) {
        Ok(certificate) => Ok(certificate),
        Err(CertFault::Malformed { line }) => Err(Unread::Refused {
            line,
            reason: Reason::Malformed,
        }),
        Err(CertFault::Version { line }) => Err(Unread::Refused {
            line,
            reason: Reason::Version,
        }),
        Err(CertFault::NoMemory) => Err(Unread::NoMemory),
    }
}

fn has_entries(list: &Acl) -> bool
    ensures { result ≡ has_entries list.now }
{
    list.is_defined()
}

/// The lists that have entries.
fn with_entries(lists: Vec<Acl>) -> Vec<Acl>
    ensures { result.items ≡ filter has_entries lists.items }
{
    let mut lists = lists;
    lists.retain(|list| has_entries(list));
    lists
}

/// The one list that has entries, unless none has or more than one.
fn only_list(lists: Vec<Acl>) -> Option<Acl>
    ensures only { IfSome result (IsOnlyList lists.items) }
    ensures none { IfNone result ((list : AccessList) → IsOnlyList lists.items list → ⊥) }
{
    let mut defined = with_entries(lists);
    if defined.len() > 1 {
        return None;
    }
    defined.pop()
}

/// The access list in a file, of which the configuration there has just one.
pub fn read_list<F: Files>(alloc: Global, file: &str, files: &mut F) -> Result<Acl, Unread>
    ensures same { (other : List ℕ) → F.holds files.new other ≡ F.holds files.old other }
    ensures holds { IfOk result (λ list. HoldsList (F.holds files.old) file.now list.entries) }
    ensures read { OnOk result
        (HasRead (F.log files.old) (F.log files.new) (file.now ∷ []) None) }
    ensures unread { IfErr result (IsUnread (IsNoList (F.holds files.old) file.now) file.now
        (F.log files.old) (F.log files.new)) }
{
    let bytes = read_bytes(alloc, file, files)?;
    match read_config(alloc, bytes.as_slice(), &mut NameTable::new(alloc)) {
        Ok(router) => match only_list(router.lists) {
            Some(list) => Ok(list),
            None => Err(Unread::Refused {
                line: 0,
                reason: Reason::NotOneList,
            }),
        },
        Err(ConfigFault::At { line, .. }) => Err(Unread::Refused {
            line,
            reason: Reason::NoConfiguration,
        }),
        Err(ConfigFault::NoMemory) => Err(Unread::NoMemory),
    }
}
