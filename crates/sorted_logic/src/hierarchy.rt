//! Which sorts lie below which, and which may share elements.

ghost use Rattle.std.specs.Prelude.{◌≡◌, option_map};
ghost use Rattle.sorted_logic.specs.Signature.{parent, below, root, sort_bits, keeps_apart, may_overlap};

use crate::declarations::SortDecl;
use crate::signature::Sig;
use crate::term::Sort;

/// The direct supersort.
fn parent(sorts: &[SortDecl], sort: Sort) -> Option<Sort>
    ensures { option_map (λ p. p.0) result ≡ parent sorts.now sort.0 }
{
    match sorts.get(sort.0 as usize) {
        Some(decl) => decl.under,
        None => None,
    }
}

impl Sig {
    /// Whether the first sort is the second, or lies below it.
    pub fn below(&self, lower: Sort, upper: Sort) -> bool
        ensures { result ≡ below self.now lower.0 upper.0 }
    {
        let sorts = self.sorts();
        let mut sort = lower;
        // No way up is longer than there are sorts.
        for _step in sorts {
            if sort == upper {
                return true;
            }
            match parent(sorts, sort) {
                Some(above) => sort = above,
                None => return false,
            }
        }
        sort == upper
    }

    /// The root under which the sort lies.
    pub fn root(&self, sort: Sort) -> Sort
        ensures { result.0 ≡ root self.now sort.0 }
    {
        let sorts = self.sorts();
        let mut highest = sort;
        for _step in sorts {
            match parent(sorts, highest) {
                Some(above) => highest = above,
                None => return highest,
            }
        }
        highest
    }

    /// How many bits the numbers of the sort's elements have, where its root is interpreted.
    pub fn bits(&self, sort: Sort) -> Option<u8>
        ensures { result ≡ sort_bits self.now sort.0 }
    {
        match self.sorts().get(self.root(sort).0 as usize) {
            Some(decl) => decl.bits,
            None => None,
        }
    }

    /// Whether the two sorts may share elements: they lie under one root, and no disjoint pair keeps them apart.
    pub fn may_overlap(&self, left: Sort, right: Sort) -> bool
        ensures { result ≡ may_overlap self.now left.0 right.0 }
    {
        if self.root(left) != self.root(right) {
            return false;
        }
        for pair in self.disjoint() {
            if self.keeps_apart(left, right, *pair) {
                return false;
            }
        }
        true
    }

    /// Whether one sort lies at or below one of the pair, and the other at or below the other.
    fn keeps_apart(&self, left: Sort, right: Sort, pair: (Sort, Sort)) -> bool
        ensures { result ≡ keeps_apart self.now left.0 right.0 pair }
    {
        (self.below(left, pair.0) && self.below(right, pair.1))
            || (self.below(left, pair.1) && self.below(right, pair.0))
    }
}
