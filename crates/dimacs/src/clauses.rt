ghost use Rattle.std.specs.Prelude.{◌≡◌, ◌^◌, ◌<◌, ◌≤◌, ◌++◌, ◌∷◌, [], ℕ, List, codes, length, IfOk, IfErr, OnOk};
ghost use Rattle.cnf.specs.Clauses.{IsInRange};
ghost use Rattle.certificates.specs.Text.{lit_text};
ghost use Rattle.certificates.specs.Parts.Entries.{IsWritableLit};
ghost use Rattle.dimacs.specs.Text.{head_words};
ghost use Rattle.dimacs.specs.Inside.Fronts.{EndsText, IsFault, IsFront, StopsBy};

use crate::NoMemory;
use crate::fault::{DimacsFault, DimacsReason};
use crate::head::Head;
use crate::words::Words;
use certificates::lit;
use cnf::{Clause, Cnf, Lit};
use std::alloc::Global;

/// What was read so far.
#[derive(Drop)]
struct Reading {
    cnf: Cnf,
    /// How many clauses there are to be.
    count: usize,
    /// The literals of the clause that is not ended yet.
    part: Vec<Lit>,
}

fn at(line: u64, reason: DimacsReason) -> DimacsFault
    ensures { result ≡ DimacsFault.At line reason }
{
    DimacsFault::At { line, reason }
}

fn push(lits: &mut Vec<Lit>, lit: Lit) -> Result<(), NoMemory>
    ensures { OnOk result (lits.new.items ≡ lits.old.items ++ lit ∷ []) }
{
    lits.push(lit)?;
    Ok(())
}

impl Reading {
    /// Ends the clause at a 0, which stands on this line.
    fn end_clause(&mut self, alloc: Global, line: u64) -> Result<(), DimacsFault>
        requires { IsInRange self.old.cnf.vars self.old.part.items }
        ensures same { (self.new.cnf.vars ≡ self.old.cnf.vars) × (self.new.count ≡ self.old.count) }
        ensures taken { (words : List (List ℕ))
            → IsFront words self.old.cnf.vars self.old.count self.old.cnf.clauses self.old.part.items
            → OnOk result (IsFront (words ++ codes "0" ∷ [])
            self.new.cnf.vars self.new.count self.new.cnf.clauses self.new.part.items) }
        ensures refused { (words : List (List ℕ))
            → IsFront words self.old.cnf.vars self.old.count self.old.cnf.clauses self.old.part.items
            → IfErr result (StopsBy line (words ++ codes "0" ∷ [])) }
    {
        if self.cnf.clauses().len() >= self.count {
            return Err(at(line, DimacsReason::TooMany));
        }
        let clause = Clause::from_lits(alloc, self.part.as_slice())?;
        self.cnf.push_in_range(clause)?;
        self.part.clear();
        Ok(())
    }

    /// Takes a literal, which stands on this line.
    fn add(&mut self, line: u64, lit: Lit) -> Result<(), DimacsFault>
        requires { IsWritableLit lit }
        ensures same { (self.new.cnf.vars ≡ self.old.cnf.vars) × (self.new.count ≡ self.old.count) }
        ensures taken { (words : List (List ℕ))
            → IsFront words self.old.cnf.vars self.old.count self.old.cnf.clauses self.old.part.items
            → OnOk result (IsFront (words ++ lit_text lit ∷ [])
            self.new.cnf.vars self.new.count self.new.cnf.clauses self.new.part.items) }
        ensures refused { (words : List (List ℕ))
            → IsFront words self.old.cnf.vars self.old.count self.old.cnf.clauses self.old.part.items
            → IfErr result (StopsBy line (words ++ lit_text lit ∷ [])) }
    {
        if self.cnf.clauses().len() >= self.count {
            return Err(at(line, DimacsReason::TooMany));
        }
        if lit.var >= self.cnf.vars() {
            return Err(at(line, DimacsReason::Variable));
        }
        push(&mut self.part, lit)?;
        Ok(())
    }

    /// The formula of a text that ends here, before this line.
    fn end(self, line: u64) -> Result<Cnf, DimacsFault>
        ensures read { IfOk result (λ cnf. (cnf ≡ self.cnf) × (self.count ≤ length self.cnf.clauses)) }
        ensures refused { IfErr result (λ fault. (fault ≡ DimacsFault.At line DimacsReason.Incomplete)
            × (length self.cnf.clauses < self.count)) }
    {
        if self.cnf.clauses().len() < self.count {
            return Err(at(line, DimacsReason::Incomplete));
        }
        Ok(self.cnf)
    }

    /// Takes the next word, which stands on this line.
    fn take(&mut self, alloc: Global, line: u64, word: &[u8]) -> Result<(), DimacsFault>
        requires { IsInRange self.old.cnf.vars self.old.part.items }
        ensures same { (self.new.cnf.vars ≡ self.old.cnf.vars) × (self.new.count ≡ self.old.count) }
        ensures taken { (words : List (List ℕ))
            → IsFront words self.old.cnf.vars self.old.count self.old.cnf.clauses self.old.part.items
            → OnOk result (IsFront (words ++ word.now ∷ [])
            self.new.cnf.vars self.new.count self.new.cnf.clauses self.new.part.items) }
        ensures refused { (words : List (List ℕ))
            → IsFront words self.old.cnf.vars self.old.count self.old.cnf.clauses self.old.part.items
            → IfErr result (StopsBy line (words ++ word.now ∷ [])) }
    {
        if word == b"0".as_slice() {
            return self.end_clause(alloc, line);
        }
        match lit(word) {
            Some(lit) => self.add(line, lit),
            None => Err(at(line, DimacsReason::Syntax)),
        }
    }
}

/// Takes the clauses behind a head, up to the end of the text.
pub fn take_clauses(alloc: Global, head: Head, words: &mut Words<'_>) -> Result<Cnf, DimacsFault>
    requires vars { head.vars < 2 ^ 62 }
    requires count { head.count < 2 ^ 62 }
    ensures read { IfOk result (EndsText head.vars head.count words.old.words) }
    ensures refused { IfErr result (IsFault (head_words head.vars head.count) words.old) }
{
    let mut reading = Reading {
        cnf: Cnf::new(alloc, head.vars),
        count: head.count,
        part: Vec::new(alloc),
    };
    loop {
        match words.next() {
            Ok(word) => reading.take(alloc, word.line, word.text)?,
            Err(line) => return reading.end(line),
        }
    }
}
