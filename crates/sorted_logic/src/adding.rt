//! What a signature declares, and one declaration more.

ghost use Rattle.std.specs.Prelude.{◌≡◌, ◌<◌, ◌≤◌, ◌++◌, ◌∷◌, [], Some, None, false, length, IfOk, IfErr, IfSome, OnOk, OnErr};
ghost use Rattle.std.specs.List.{AllByRecursion};
ghost use Rattle.sorted_logic.specs.Adding.{is_taken, any_taken, are_comparable, IsReason, with_sorts, with_function, with_relation, with_disjoint, symbol_of};
ghost use Rattle.sorted_logic.specs.Signature.{AreBits, AreSorts, IsHierarchy};

use crate::copy::copy_sorts;
use crate::declarations::{FuncDecl, RelDecl, SortDecl, Symbol};
use crate::fault::SigFault;
use crate::signature::Sig;
use crate::term::{Func, Rel, Sort};
use crate::text::Text;
use sqlite_items::Items;
use std::alloc::{AllocError, Global};

impl Sig {
    /// What the name stands for.
    pub fn find(&self, name: &str) -> Option<Symbol>
        ensures { result ≡ symbol_of self.now name.now }
    {
        self.names.find(name.as_bytes())
    }

    /// Adds a sort: a root, or one under a sort that is there.
    pub fn add_sort(&mut self, name: &str, under: Option<Sort>) -> Result<Sort, SigFault>
        requires { IfSome under (λ s. s.0 < length self.old.sorts) }
        ensures added { OnOk result (self.new
            ≡ with_sorts self.old ((record { name = name.now; under = under; bits = None }) ∷ [])) }
        ensures place { IfOk result (λ s. s.0 ≡ length self.old.sorts) }
        ensures new { OnOk result (is_taken self.old name.now ≡ false) }
        ensures reason { IfErr result (IsReason (is_taken self.old name.now) false) }
        ensures unchanged { OnErr result (self.new ≡ self.old) }
    {
        let name = Text::of(self.alloc, name)?;
        self.push_sort(SortDecl {
            name,
            under,
            bits: None,
        })
    }

    /// Adds a root whose elements carry numbers of so many bits, from 1 to 128.
    pub fn add_numbers(&mut self, name: &str, bits: u8) -> Result<Sort, SigFault>
        requires { (1 ≤ bits) × (bits ≤ 128) }
        ensures added { OnOk result (self.new
            ≡ with_sorts self.old ((record { name = name.now; under = None; bits = Some bits }) ∷ [])) }
        ensures place { IfOk result (λ s. s.0 ≡ length self.old.sorts) }
        ensures new { OnOk result (is_taken self.old name.now ≡ false) }
        ensures reason { IfErr result (IsReason (is_taken self.old name.now) false) }
        ensures unchanged { OnErr result (self.new ≡ self.old) }
    {
        let name = Text::of(self.alloc, name)?;
        self.push_sort(SortDecl {
            name,
            under: None,
            bits: Some(bits),
        })
    }

    fn push_sort(&mut self, decl: SortDecl) -> Result<Sort, SigFault>
        requires hierarchy { IsHierarchy (self.old.sorts ++ decl ∷ []) }
        requires bits { AreBits decl }
        ensures added { OnOk result (self.new ≡ with_sorts self.old (decl ∷ [])) }
        ensures place { IfOk result (λ s. s.0 ≡ length self.old.sorts) }
        ensures new { OnOk result (is_taken self.old decl.name ≡ false) }
        ensures reason { IfErr result (IsReason (is_taken self.old decl.name) false) }
        ensures unchanged { OnErr result (self.new ≡ self.old) }
    {
        let sort = Sort(self.sorts.len() as u64);
        let names = self.names.len();
        self.names.add(&decl.name, Symbol::Sort(sort))?;
        if self.sorts.push(decl).is_err() {
            self.names.truncate(names);
            return Err(SigFault::NoMemory);
        }
        Ok(sort)
    }

    /// Adds these sorts in order, all or none. A supersort may be one that stands later among them.
    pub fn add_sorts(&mut self, decls: &[SortDecl]) -> Result<(), SigFault>
        requires hierarchy { IsHierarchy (self.old.sorts ++ decls.now) }
        requires bits { AllByRecursion AreBits decls.now }
        ensures added { OnOk result (self.new ≡ with_sorts self.old decls.now) }
        ensures new { OnOk result (any_taken self.old decls.now ≡ false) }
        ensures reason { IfErr result (IsReason (any_taken self.old decls.now) false) }
        ensures unchanged { OnErr result (self.new ≡ self.old) }
    {
        let mut sorts = Items::new(self.alloc);
        copy_onto(self.alloc, &mut sorts, self.sorts())?;
        copy_onto(self.alloc, &mut sorts, decls)?;
        self.names.add_sorts(self.sorts.len() as u64, decls)?;
        self.sorts = sorts;
        Ok(())
    }

    /// Declares that the two sorts share no element.
    pub fn add_disjoint(&mut self, left: Sort, right: Sort) -> Result<(), SigFault>
        requires { (left.0 < length self.old.sorts) × (right.0 < length self.old.sorts) }
        ensures added { OnOk result (self.new ≡ with_disjoint self.old (left, right)) }
        ensures apart { OnOk result (are_comparable self.old left.0 right.0 ≡ false) }
        ensures reason { IfErr result (IsReason false (are_comparable self.old left.0 right.0)) }
        ensures unchanged { OnErr result (self.new ≡ self.old) }
    {
        if self.below(left, right) || self.below(right, left) {
            return Err(SigFault::IllSorted);
        }
        self.push_disjoint(left, right)?;
        Ok(())
    }

    pub(crate) fn push_disjoint(&mut self, left: Sort, right: Sort) -> Result<(), AllocError>
        requires { (left.0 < length self.old.sorts) × (right.0 < length self.old.sorts) }
        ensures added { OnOk result (self.new ≡ with_disjoint self.old (left, right)) }
        ensures unchanged { OnErr result (self.new ≡ self.old) }
    {
        self.disjoint.push((left, right))
    }

    /// Adds a function, a constant where it has no arguments.
    pub fn add_function(
        &mut self,
        name: &str,
        args: &[Sort],
        result_sort: Sort,
    ) -> Result<Func, SigFault>
        requires args { AreSorts self.old.sorts args.now }
        requires result { result_sort.0 < length self.old.sorts }
        ensures added { OnOk result (self.new
            ≡ with_function self.old (record { name = name.now; args = args.now; result = result_sort })) }
        ensures place { IfOk result (λ f. f.0 ≡ length self.old.functions) }
        ensures new { OnOk result (is_taken self.old name.now ≡ false) }
        ensures reason { IfErr result (IsReason (is_taken self.old name.now) false) }
        ensures unchanged { OnErr result (self.new ≡ self.old) }
    {
        let decl = FuncDecl {
            name: Text::of(self.alloc, name)?,
            args: copy_sorts(self.alloc, args)?,
            result: result_sort,
        };
        let function = Func(self.functions.len() as u64);
        let names = self.names.len();
        self.names.add(&decl.name, Symbol::Func(function))?;
        if self.functions.push(decl).is_err() {
            self.names.truncate(names);
            return Err(SigFault::NoMemory);
        }
        Ok(function)
    }

    /// Adds a relation.
    pub fn add_relation(&mut self, name: &str, args: &[Sort]) -> Result<Rel, SigFault>
        requires { AreSorts self.old.sorts args.now }
        ensures added { OnOk result (self.new
            ≡ with_relation self.old (record { name = name.now; args = args.now })) }
        ensures place { IfOk result (λ r. r.0 ≡ length self.old.relations) }
        ensures new { OnOk result (is_taken self.old name.now ≡ false) }
        ensures reason { IfErr result (IsReason (is_taken self.old name.now) false) }
        ensures unchanged { OnErr result (self.new ≡ self.old) }
    {
        let decl = RelDecl {
            name: Text::of(self.alloc, name)?,
            args: copy_sorts(self.alloc, args)?,
        };
        let relation = Rel(self.relations.len() as u64);
        let names = self.names.len();
        self.names.add(&decl.name, Symbol::Rel(relation))?;
        if self.relations.push(decl).is_err() {
            self.names.truncate(names);
            return Err(SigFault::NoMemory);
        }
        Ok(relation)
    }
}

/// Adds copies of the declarations at the end. After an `Err` some may have been added.
fn copy_onto(
    alloc: Global,
    sorts: &mut Items<SortDecl>,
    decls: &[SortDecl],
) -> Result<(), AllocError>
    ensures { OnOk result (sorts.new ≡ sorts.old ++ decls.now) }
{
    for decl in decls {
        sorts.push(decl.copy(alloc)?)?;
    }
    Ok(())
}
