//! Signatures.

ghost use Rattle.std.specs.Prelude.{◌≡◌};
ghost use Rattle.sorted_logic.specs.Signature.{IsSignature};

use crate::declarations::{FuncDecl, RelDecl, SortDecl};
use crate::name_map::NameMap;
use crate::term::Sort;
use sqlite_items::Items;
use std::alloc::Global;
use std::marker::Model;

/// Sorts, functions and relations, each in order of declaration, and pairs of disjoint sorts.
#[derive(Drop)]
pub struct Sig {
    pub(crate) alloc: Global,
    pub(crate) names: NameMap,
    pub(crate) sorts: Items<SortDecl>,
    pub(crate) functions: Items<FuncDecl>,
    pub(crate) relations: Items<RelDecl>,
    pub(crate) disjoint: Items<(Sort, Sort)>,
}

impl Model for Sig {
    ghost use Rattle.sorted_logic.specs.Inside.Kept.{IsKept};
    ghost use Rattle.sorted_logic.specs.Signature.{Signature};

    ghost Value = { Signature };

    ghost view = { λ sig. record {
      sorts = sig.sorts;
      functions = sig.functions;
      relations = sig.relations;
      disjoint = sig.disjoint;
    } };

    ghost invariant = { λ sig. IsKept sig.names (record {
      sorts = sig.sorts;
      functions = sig.functions;
      relations = sig.relations;
      disjoint = sig.disjoint;
    }) };
}

impl Sig {
    /// The sorts, in order of declaration.
    pub fn sorts(&self) -> &[SortDecl]
        ensures { result.now ≡ self.now.sorts }
    {
        self.sorts.as_slice()
    }

    /// The functions, in order of declaration.
    pub fn functions(&self) -> &[FuncDecl]
        ensures { result.now ≡ self.now.functions }
    {
        self.functions.as_slice()
    }

    /// The relations, in order of declaration.
    pub fn relations(&self) -> &[RelDecl]
        ensures { result.now ≡ self.now.relations }
    {
        self.relations.as_slice()
    }

    /// The pairs of sorts that were declared disjoint, in order of declaration.
    pub fn disjoint(&self) -> &[(Sort, Sort)]
        ensures { result.now ≡ self.now.disjoint }
    {
        self.disjoint.as_slice()
    }

    /// What is declared is a signature: names differ, none is that of a field, and each sort that is spoken of is declared.
    pub fn signature_is_kept(&self)
        ensures { IsSignature self.now }
    {
        let _ = &self.alloc;
    }
}
