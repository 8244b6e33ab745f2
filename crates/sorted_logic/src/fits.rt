//! Whether a finite universe is one of a signature: its sorts and numbers.

ghost use Rattle.std.specs.Prelude.{◌≡◌, ◌↔◌, ◌^◌, IsTrue, nat_lt, length, is_none};
ghost use Rattle.std.specs.List.{list_all};
ghost use Rattle.sorted_logic.specs.Finite.{answers};
ghost use Rattle.sorted_logic.specs.Inside.Evaluation.{all_below};
ghost use Rattle.sorted_logic.specs.Inside.UniverseTests.{is_inside, is_in_parent, are_apart, are_apart_roots, is_apart_from_earlier, bits_of, carries, all_carry, numbers_fit, same_number, share_number, differs_from_earlier, numbers_differ, fits_sorts, fits_numbers};
ghost use Rattle.sorted_logic.specs.Signature.{parent};
ghost use Rattle.sorted_logic.specs.Universe.{IsUniverse};

use crate::declarations::SortDecl;
use crate::signature::Sig;
use crate::term::Sort;
use crate::universe::FiniteUniverse;

/// The direct supersort of a sort.
fn parent_of(sorts: &[SortDecl], s: u64) -> Option<u64>
    ensures { result ≡ parent sorts.now s }
{
    match sorts.get(s as usize) {
        Some(d) => match d.under {
            Some(p) => Some(p.0),
            None => None,
        },
        None => None,
    }
}

/// The bits that a sort was declared with.
fn bits_at(sorts: &[SortDecl], s: u64) -> Option<u8>
    ensures { result ≡ bits_of sorts.now s }
{
    match sorts.get(s as usize) {
        Some(d) => d.bits,
        None => None,
    }
}

fn has_so_many_bits(number: u128, bits: u8) -> bool
    ensures { result ≡ nat_lt number (2 ^ bits) }
{
    bits >= 128 || number < 1u128 << bits
}

impl FiniteUniverse {
    /// Is this a universe of the signature?
    pub fn fits(&self, sig: &Sig) -> bool
        ensures { IsTrue result ↔ IsUniverse sig.now (answers self.now) }
    {
        self.fits_sorts(sig) && self.fits_symbols(sig)
    }

    /// Subsorts lie in their supersorts, roots and disjoint sorts share no element, and numbers fit.
    fn fits_sorts(&self, sig: &Sig) -> bool
        ensures { result ≡ fits_sorts (answers self.now) self.now.size sig.now }
    {
        self.are_subsorts_inside(sig.sorts())
            && self.are_roots_apart(sig.sorts())
            && self.are_pairs_apart(sig.disjoint())
            && self.fits_numbers(sig)
    }

    /// The elements of interpreted roots carry different numbers of so many bits.
    fn fits_numbers(&self, sig: &Sig) -> bool
        ensures { result ≡ fits_numbers (answers self.now) self.now.size sig.now }
    {
        self.are_numbers_fit(sig.sorts()) && self.are_numbers_different(sig.sorts())
    }

    fn is_inside(&self, s: u64, t: u64) -> bool
        ensures { result ≡ is_inside (answers self.now) self.now.size s t }
    {
        for e in 0..self.size {
            if self.has(Sort(s), e) && !self.has(Sort(t), e) {
                return false;
            }
        }
        true
    }

    fn is_in_parent(&self, sorts: &[SortDecl], s: u64) -> bool
        ensures { result ≡ is_in_parent (answers self.now) self.now.size sorts.now s }
    {
        match parent_of(sorts, s) {
            Some(p) => self.is_inside(s, p),
            None => true,
        }
    }

    fn are_subsorts_inside(&self, sorts: &[SortDecl]) -> bool
        ensures { result ≡ all_below (length sorts.now)
            (is_in_parent (answers self.now) self.now.size sorts.now) }
    {
        for s in 0..sorts.len() as u64 {
            if !self.is_in_parent(sorts, s) {
                return false;
            }
        }
        true
    }

    fn are_apart(&self, s: u64, t: u64) -> bool
        ensures { result ≡ are_apart (answers self.now) self.now.size s t }
    {
        for e in 0..self.size {
            if self.has(Sort(s), e) && self.has(Sort(t), e) {
                return false;
            }
        }
        true
    }

    /// Two sorts share no element, if both are roots.
    fn are_apart_roots(&self, sorts: &[SortDecl], s: u64, t: u64) -> bool
        ensures { result ≡ are_apart_roots (answers self.now) self.now.size sorts.now s t }
    {
        let are_roots = parent_of(sorts, s).is_none() && parent_of(sorts, t).is_none();
        !are_roots || self.are_apart(s, t)
    }

    /// A root is compared with those before it alone, so that each two are compared once.
    fn is_apart_from_earlier(&self, sorts: &[SortDecl], s: u64) -> bool
        ensures { result ≡ is_apart_from_earlier (answers self.now) self.now.size sorts.now s }
    {
        for t in 0..s {
            if !self.are_apart_roots(sorts, s, t) {
                return false;
            }
        }
        true
    }

    fn are_roots_apart(&self, sorts: &[SortDecl]) -> bool
        ensures { result ≡ all_below (length sorts.now)
            (is_apart_from_earlier (answers self.now) self.now.size sorts.now) }
    {
        for s in 0..sorts.len() as u64 {
            if !self.is_apart_from_earlier(sorts, s) {
                return false;
            }
        }
        true
    }

    fn are_pairs_apart(&self, pairs: &[(Sort, Sort)]) -> bool
        ensures { result ≡ list_all
            (λ pair. are_apart (answers self.now) self.now.size pair.0.0 pair.1.0) pairs.now }
    {
        for pair in pairs {
            if !self.are_apart(pair.0.0, pair.1.0) {
                return false;
            }
        }
        true
    }

    fn carries_bits(&self, e: u64, bits: u8) -> bool
        ensures { result ≡ carries (answers self.now) bits e }
    {
        match self.number(e) {
            Some(number) => has_so_many_bits(number, bits),
            None => false,
        }
    }

    fn all_carry(&self, s: u64, bits: u8) -> bool
        ensures { result ≡ all_carry (answers self.now) self.now.size s bits }
    {
        for e in 0..self.size {
            if self.has(Sort(s), e) && !self.carries_bits(e, bits) {
                return false;
            }
        }
        true
    }

    fn numbers_fit(&self, sorts: &[SortDecl], s: u64) -> bool
        ensures { result ≡ numbers_fit (answers self.now) self.now.size sorts.now s }
    {
        match bits_at(sorts, s) {
            Some(bits) => self.all_carry(s, bits),
            None => true,
        }
    }

    fn are_numbers_fit(&self, sorts: &[SortDecl]) -> bool
        ensures { result ≡ all_below (length sorts.now)
            (numbers_fit (answers self.now) self.now.size sorts.now) }
    {
        for s in 0..sorts.len() as u64 {
            if !self.numbers_fit(sorts, s) {
                return false;
            }
        }
        true
    }

    /// Two elements carry one number, or neither carries any.
    fn same_number(&self, e: u64, other: u64) -> bool
        ensures { result ≡ same_number ((answers self.now).number e)
            ((answers self.now).number other) }
    {
        match (self.number(e), self.number(other)) {
            (Some(a), Some(b)) => a == b,
            (None, None) => true,
            _ => false,
        }
    }

    fn share_number(&self, s: u64, e: u64, other: u64) -> bool
        ensures { result ≡ share_number (answers self.now) s e other }
    {
        self.has(Sort(s), e) && self.has(Sort(s), other) && self.same_number(e, other)
    }

    /// An element is compared with those before it alone, so that each two are compared once.
    fn differs_from_earlier(&self, s: u64, e: u64) -> bool
        ensures { result ≡ differs_from_earlier (answers self.now) s e }
    {
        for other in 0..e {
            if self.share_number(s, e, other) {
                return false;
            }
        }
        true
    }

    fn all_differ(&self, s: u64) -> bool
        ensures { result ≡ all_below self.now.size (differs_from_earlier (answers self.now) s) }
    {
        for e in 0..self.size {
            if !self.differs_from_earlier(s, e) {
                return false;
            }
        }
        true
    }

    fn numbers_differ(&self, sorts: &[SortDecl], s: u64) -> bool
        ensures { result ≡ numbers_differ (answers self.now) self.now.size sorts.now s }
    {
        match bits_at(sorts, s) {
            Some(_) => self.all_differ(s),
            None => true,
        }
    }

    fn are_numbers_different(&self, sorts: &[SortDecl]) -> bool
        ensures { result ≡ all_below (length sorts.now)
            (numbers_differ (answers self.now) self.now.size sorts.now) }
    {
        for s in 0..sorts.len() as u64 {
            if !self.numbers_differ(sorts, s) {
                return false;
            }
        }
        true
    }
}
