use certificates::{
    CertFault, Certificate, Item, Numbers, Step, one_certificate, read_certificate,
    write_certificate, written_is_read,
};
use cnf::{Clause, Cnf, CnfFault, Lit};
use proof_check::{
    CheckFault, Derivation, check, refuted_clauses_have_no_model, trim,
    trimmed_derivations_are_accepted,
};
use std::alloc::Global;
use std::test::Fail;
use test_tables::{answered, push_number};

fn push_decimal(text: &mut String, number: u64) -> Result<(), Fail> {
    push_number(text, Some(u128::from(number)))
}

fn push(alloc: Global, cnf: &mut Cnf, lits: &[Lit]) -> Result<(), CnfFault> {
    cnf.push(Clause::from_lits(alloc, lits)?)
}

/// `x or y`, `x or not y`, and `not x`.
fn no_x(alloc: Global) -> Result<Cnf, CnfFault> {
    let mut cnf = Cnf::new(alloc, 2);
    push(alloc, &mut cnf, &[Lit::new(0, false), Lit::new(1, false)])?;
    push(alloc, &mut cnf, &[Lit::new(0, false), Lit::new(1, true)])?;
    push(alloc, &mut cnf, &[Lit::new(0, true)])?;
    Ok(cnf)
}

/// The text with a line feed for each `;`.
fn push_lines(text: &str, lines: &mut String) -> Result<(), Fail> {
    for part in text.split(';') {
        lines.push_str(part)?;
        lines.push('\n')?;
    }
    Ok(())
}

fn push_numbers(numbers: &[usize], text: &mut String) -> Result<(), Fail> {
    for number in numbers {
        push_decimal(text, *number as u64)?;
        text.push(' ')?;
    }
    text.push('0')?;
    Ok(())
}

fn push_lits(lits: &[Lit], text: &mut String) -> Result<(), Fail> {
    for lit in lits {
        if lit.negative {
            text.push('-')?;
        }
        push_decimal(text, (lit.var as u64).saturating_add(1))?;
        text.push(' ')?;
    }
    text.push('0')?;
    Ok(())
}

fn push_item(item: &Item, text: &mut String) -> Result<(), Fail> {
    match item {
        Item::Add(step) => {
            push_lits(step.clause.lits(), text)?;
            text.push(' ')?;
            push_numbers(step.hints.as_slice(), text)
        }
        Item::Delete(numbers) => {
            text.push_str("d ")?;
            push_numbers(numbers.as_slice(), text)
        }
    }
}

fn push_items(derivation: &Derivation, text: &mut String) -> Result<(), Fail> {
    for item in derivation.items() {
        text.push(';')?;
        push_item(item, text)?;
    }
    Ok(())
}

fn push_fault(fault: CheckFault, text: &mut String) -> Result<(), Fail> {
    let (name, first, second) = match fault {
        CheckFault::VarRange { step } => ("range", step, 0),
        CheckFault::Hint { step, place } => ("hint", step, place),
        CheckFault::NotLive { item, place } => ("not live", item, place),
        CheckFault::NotEmpty => ("not empty", 0, 0),
        CheckFault::NoMemory => ("no memory", 0, 0),
    };
    text.push_str(name)?;
    text.push(' ')?;
    push_decimal(text, first as u64)?;
    text.push(' ')?;
    push_decimal(text, second as u64)
}

/// The certificate of these lines behind a head.
fn certificate_of(alloc: Global, items: &str) -> Result<Certificate, Fail> {
    let mut lines = String::new(alloc);
    lines.push_str("margrave-proof 2 1\n")?;
    push_lines(items, &mut lines)?;
    match read_certificate(alloc, lines.as_bytes()) {
        Ok(certificate) => Ok(certificate),
        Err(_) => Err("no certificate".into()),
    }
}

/// Each item once more.
fn copied(alloc: Global, items: &[Item]) -> Result<Derivation, Fail> {
    let mut copies = Vec::new(alloc);
    for item in items {
        copies.push(item.copy(alloc)?)?;
    }
    Ok(Derivation::of(copies))
}

/// Writes what is said of a derivation: the first fault, or what is left of it where it is trimmed.
fn push_verdict(alloc: Global, items: &str, text: &mut String) -> Result<(), Fail> {
    let cnf = match no_x(alloc) {
        Ok(cnf) => cnf,
        Err(_) => return Err("no clauses".into()),
    };
    let derivation = copied(alloc, certificate_of(alloc, items)?.derivation.items())?;
    match check(alloc, &cnf, &derivation) {
        Ok(()) => push_items(&trim(alloc, &cnf, &derivation)?, text),
        Err(fault) => push_fault(fault, text),
    }
}

/// Derivations over `x or y`, `x or not y` and `not x`, and `qed` behind each: a hint that names a deleted clause, one
/// that names none, 0 hints, a hint behind a conflict, too few; numbers that are deleted twice and that are none; a
/// literal with its negative, and one that is written twice; what trimming leaves out, and where it deletes.
const DERIVATIONS: &str = "1 0 1 2 0;d 1 0;0 4 3 0;qed => ;1 0 1 2 0;0 4 3 0
1 0 1 2 0;d 4 0;0 4 3 0;qed => hint 2 1
1 0 1 2 0;d 9 0;0 4 3 0;qed => not live 2 1
1 0 1 2 0;d 1 1 0;0 4 3 0;qed => not live 2 2
1 0 1 2 0;0 4 77 0;qed => hint 2 2
1 0 1 2 0;0 4 3 1 0;qed => hint 2 3
1 0 1 0;0 4 3 0;qed => hint 1 2
0 0;qed => hint 1 1
1 0 1 2 0;qed => not empty 0 0
qed => not empty 0 0
3 0 0;qed => range 1 0
1 2 -1 0 1 0;qed => hint 1 0
1 1 0 1 2 3 0;qed => hint 1 3
1 1 0 1 2 0;0 4 3 0;qed => ;1 1 0 1 2 0;0 4 3 0
1 2 0 1 0;1 0 1 2 0;1 0 4 2 0;d 5 0;1 1 0 6 0;0 7 3 0;1 0 7 0;qed \
=> ;1 2 0 1 0;1 0 4 2 0;d 4 0;1 1 0 5 0;d 5 0;0 6 3 0
";

#[test]
fn derivations_are_judged_and_trimmed(rt: HostRuntime) -> Result<(), Fail> {
    let text = answered(rt.alloc(), DERIVATIONS, "\n", push_verdict)?;
    assert_eq!(rt; text.as_str(), DERIVATIONS);
    Ok(())
}

/// `x`, and `not x`.
fn both_signs(alloc: Global) -> Result<Cnf, CnfFault> {
    let mut cnf = Cnf::new(alloc, 1);
    push(alloc, &mut cnf, &[Lit::new(0, false)])?;
    push(alloc, &mut cnf, &[Lit::new(0, true)])?;
    Ok(cnf)
}

/// The step of the empty clause with these hints, which may be 0, as no text has them; no step where there are none.
fn one_step(alloc: Global, given: &str) -> Result<Derivation, Fail> {
    let mut hints = Vec::new(alloc);
    for number in given.split_whitespace() {
        hints.push(number.parse::<usize>()?)?;
    }
    let mut items = Vec::new(alloc);
    if !hints.is_empty() {
        items.push(Item::Add(Step {
            clause: Clause::from_lits(alloc, &[])?,
            hints: Numbers::of(hints),
        }))?;
    }
    Ok(Derivation::of(items))
}

/// Writes what is said of one step over `x` and `not x`.
fn push_one_step(alloc: Global, given: &str, text: &mut String) -> Result<(), Fail> {
    let cnf = match both_signs(alloc) {
        Ok(cnf) => cnf,
        Err(_) => return Err("no clauses".into()),
    };
    match check(alloc, &cnf, &one_step(alloc, given)?) {
        Ok(()) => Ok(text.push_str("accepted")?),
        Err(fault) => push_fault(fault, text),
    }
}

/// The hints of one step with the empty clause: both clauses, one of them twice, none and so no step, and numbers of no clause.
const ONE_STEP: &str = "1 2 => accepted
2 1 => accepted
2 2 => hint 1 2
1 => hint 1 2
 => not empty 0 0
0 => hint 1 1
1 0 => hint 1 2
3 => hint 1 1
";

#[test]
fn one_step_over_one_variable(rt: HostRuntime) -> Result<(), Fail> {
    let text = answered(rt.alloc(), ONE_STEP, "\n", push_one_step)?;
    assert_eq!(rt; text.as_str(), ONE_STEP);
    Ok(())
}

/// Writes what is read of a text: its line and items, or why it is none.
fn push_read(alloc: Global, given: &str, text: &mut String) -> Result<(), Fail> {
    let mut lines = String::new(alloc);
    push_lines(given, &mut lines)?;
    match read_certificate(alloc, lines.as_bytes()) {
        Ok(certificate) => {
            push_decimal(text, certificate.line)?;
            push_items(&certificate.derivation, text)
        }
        Err(CertFault::Malformed { line }) => {
            text.push_str("malformed ")?;
            push_decimal(text, line)
        }
        Err(CertFault::Version { line }) => {
            text.push_str("version ")?;
            push_decimal(text, line)
        }
        Err(CertFault::NoMemory) => Err("no memory".into()),
    }
}

/// Texts of certificates: a front that is skipped, both versions, deletions in the second alone, and what is no number or
/// no line of one.
const CERTIFICATES: &str =
    "margrave-proof 2 7;1 -2 0 1 0;d 1 0;0 2 0;qed => 7;1 -2 0 1 0;d 1 0;0 2 0
no scenario;margrave-proof 1 3;0 1 2 0;qed;more => 3;0 1 2 0
margrave-proof 1 3;d 1 0;qed => malformed 2
margrave-proof 9 3;qed => version 1
margrave-proof 2 3;+1 0 1 0;qed => malformed 2
margrave-proof 2 3;1  0 1 0;qed => malformed 2
margrave-proof 2 3;01 0 1 0;qed => malformed 2
margrave-proof 2 3;1 0 1 0 ;qed => malformed 2
margrave-proof 2 3;1 0 1 0 => malformed 3
margrave-proof 2 => malformed 1
no scenario => malformed 2
";

#[test]
fn certificates_are_read(rt: HostRuntime) -> Result<(), Fail> {
    let text = answered(rt.alloc(), CERTIFICATES, "\n", push_read)?;
    assert_eq!(rt; text.as_str(), CERTIFICATES);
    Ok(())
}

/// The text of what a certificate needs, where it is accepted.
fn trimmed_text(alloc: Global, cnf: &Cnf, bytes: &[u8]) -> Result<Vec<u8>, Fail> {
    let Ok(read) = read_certificate(alloc, bytes) else {
        return Err("no certificate".into());
    };
    let Ok(()) = check(alloc, cnf, &read.derivation) else {
        return Err("not accepted".into());
    };
    let trimmed = Certificate {
        line: read.line,
        derivation: trim(alloc, cnf, &read.derivation)?,
    };
    Ok(write_certificate(alloc, &trimmed)?)
}

/// Writes what is left of a certificate's text once it is trimmed, and what is said of it where it is read again.
fn push_rewritten(alloc: Global, given: &str, text: &mut String) -> Result<(), Fail> {
    let cnf = match no_x(alloc) {
        Ok(cnf) => cnf,
        Err(_) => return Err("no clauses".into()),
    };
    let mut lines = String::new(alloc);
    push_lines(given, &mut lines)?;
    let written = trimmed_text(alloc, &cnf, lines.as_bytes())?;
    for byte in &written {
        text.push(if *byte == b'\n' {
            ';'
        } else {
            char::from(*byte)
        })?;
    }
    let Ok(again) = read_certificate(alloc, written.as_slice()) else {
        return Err("not read again".into());
    };
    match check(alloc, &cnf, &again.derivation) {
        Ok(()) => text.push_str("accepted")?,
        Err(fault) => push_fault(fault, text)?,
    }
    Ok(())
}

/// Certificates of both versions, which are read, trimmed, written, and read and accepted again.
const REWRITTEN: &str =
    "margrave-proof 1 7;1 2 0 1 0;1 0 1 2 0;0 5 3 0;qed => margrave-proof 2 7;1 0 1 2 0;0 4 3 0;qed;accepted
margrave-proof 2 3;1 2 0 1 0;d 4 0;1 0 1 2 0;d 1 2 0;0 5 3 0;1 0 5 0;qed;x \
=> margrave-proof 2 3;1 0 1 2 0;0 4 3 0;qed;accepted
";

#[test]
fn certificates_are_trimmed_and_read_again(rt: HostRuntime) -> Result<(), Fail> {
    let text = answered(rt.alloc(), REWRITTEN, "\n", push_rewritten)?;
    assert_eq!(rt; text.as_str(), REWRITTEN);
    Ok(())
}

#[test]
fn laws_of_derivations() {
    one_certificate();
    written_is_read();
    refuted_clauses_have_no_model();
    trimmed_derivations_are_accepted();
}
