//! The base signature, and copies of signatures.

ghost use Rattle.std.specs.Prelude.{◌≡◌, ◌≤◌, ◌∷◌, [], false, IfOk, OnOk};
ghost use Rattle.sorted_logic.specs.Adding.{is_taken, with_sorts};
ghost use Rattle.sorted_logic.specs.Base.{base, interpreted};

use crate::declarations::{FuncDecl, RelDecl, SortDecl};
use crate::name_map::NameMap;
use crate::signature::Sig;
use sqlite_items::Items;
use std::alloc::{AllocError, Global};

impl Sig {
    /// The base signature: the interpreted roots Address, Port, Protocol, Flags, IcmpType, IcmpCode and Interface. What is
    /// added later takes its memory from this allocator.
    pub fn base(alloc: Global) -> Result<Sig, AllocError>
        ensures { IfOk result (λ sig. sig ≡ base) }
    {
        let mut sig = Sig::empty(alloc);
        sig.add_root("Address", 32)?;
        sig.add_root("Port", 16)?;
        sig.add_root("Protocol", 8)?;
        sig.add_root("Flags", 6)?;
        sig.add_root("IcmpType", 8)?;
        sig.add_root("IcmpCode", 8)?;
        sig.add_root("Interface", 16)?;
        Ok(sig)
    }

    fn empty(alloc: Global) -> Sig
        ensures { result ≡ record { sorts = []; functions = []; relations = []; disjoint = [] } }
    {
        Sig {
            alloc,
            names: NameMap::new(alloc),
            sorts: Items::new(alloc),
            functions: Items::new(alloc),
            relations: Items::new(alloc),
            disjoint: Items::new(alloc),
        }
    }

    /// Adds an interpreted root with a new name.
    fn add_root(&mut self, name: &str, bits: u8) -> Result<(), AllocError>
        requires new { is_taken self.old name.now ≡ false }
        requires bits { (1 ≤ bits) × (bits ≤ 128) }
        ensures { OnOk result (self.new ≡ with_sorts self.old (interpreted name.now bits ∷ [])) }
    {
        match self.add_numbers(name, bits) {
            Ok(_) => Ok(()),
            // The name is new, so only memory can be wanting.
            Err(_) => Err(AllocError),
        }
    }

    /// The same signature once more.
    pub fn copy(&self) -> Result<Sig, AllocError>
        ensures { IfOk result (λ sig. sig ≡ self.now) }
    {
        Ok(Sig {
            alloc: self.alloc,
            names: self.names.copy()?,
            sorts: copy_sort_decls(self.alloc, self.sorts())?,
            functions: copy_functions(self.alloc, self.functions())?,
            relations: copy_relations(self.alloc, self.relations())?,
            disjoint: Items::from_slice(self.alloc, self.disjoint())?,
        })
    }
}

fn copy_sort_decls(alloc: Global, decls: &[SortDecl]) -> Result<Items<SortDecl>, AllocError>
    ensures { IfOk result (λ copies. copies ≡ decls.now) }
{
    let mut copies = Items::new(alloc);
    for decl in decls {
        copies.push(decl.copy(alloc)?)?;
    }
    Ok(copies)
}

fn copy_functions(alloc: Global, decls: &[FuncDecl]) -> Result<Items<FuncDecl>, AllocError>
    ensures { IfOk result (λ copies. copies ≡ decls.now) }
{
    let mut copies = Items::new(alloc);
    for decl in decls {
        copies.push(decl.copy(alloc)?)?;
    }
    Ok(copies)
}

fn copy_relations(alloc: Global, decls: &[RelDecl]) -> Result<Items<RelDecl>, AllocError>
    ensures { IfOk result (λ copies. copies ≡ decls.now) }
{
    let mut copies = Items::new(alloc);
    for decl in decls {
        copies.push(decl.copy(alloc)?)?;
    }
    Ok(copies)
}
