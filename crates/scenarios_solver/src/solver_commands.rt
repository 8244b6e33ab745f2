use mg_outside::{MemFiles, MemSink};
use solver_run::{MemStore, run};
use std::alloc::Global;
use std::test::Fail;
use test_tables::{answered, push_bytes};

/// The text with a line feed for each `;`.
fn lines_of(alloc: Global, text: &str) -> Result<String, Fail> {
    let mut lines = String::new(alloc);
    for part in text.split_inclusive(';') {
        match part.strip_suffix(';') {
            Some(line) => write!(lines, "{line}\n")?,
            None => lines.push_str(part)?,
        }
    }
    Ok(lines)
}

fn words_in(alloc: Global, text: &str) -> Result<Vec<String>, Fail> {
    let mut words = Vec::new(alloc);
    for word in text.split(' ') {
        words.push(String::from_str(alloc, word)?)?;
    }
    Ok(words)
}

/// Writes the status of the command, a blank, and all that the sink has taken.
fn push_run(
    alloc: Global,
    words: &str,
    files: &mut MemFiles,
    mut out: MemSink,
    store: &mut MemStore,
    text: &mut String,
) -> Result<(), Fail> {
    let words = words_in(alloc, words)?;
    let cause = run(alloc, words.as_slice(), files, &mut out, store);
    write!(text, "{} ", cause.status())?;
    push_bytes(text, out.bytes())
}

/// The files of a row: clauses as `f`, and a certificate as `g`.
fn files_of(alloc: Global, clauses: &str, proof: &str) -> Result<MemFiles, Fail> {
    let mut files = MemFiles::new(alloc);
    files.put("f", lines_of(alloc, clauses)?.as_bytes())?;
    files.put("g", lines_of(alloc, proof)?.as_bytes())?;
    Ok(files)
}

/// Writes the run of a row over this sink and this store; and where a certificate was stored, the run that checks it.
fn push_row(
    alloc: Global,
    row: &str,
    out: MemSink,
    mut store: MemStore,
    text: &mut String,
) -> Result<(), Fail> {
    let (words, files) = row.split_once(" | ").ok_or("a row without files")?;
    let (clauses, proof) = files
        .split_once(" | ")
        .ok_or("a row without a certificate")?;
    let mut files = files_of(alloc, clauses, proof)?;
    push_run(alloc, words, &mut files, out, &mut store, text)?;
    if store.count() == 0 {
        return Ok(());
    }
    files.put("g", store.bytes(0))?;
    text.push_str("and ")?;
    push_run(
        alloc,
        "check f g",
        &mut files,
        MemSink::new(alloc),
        &mut store,
        text,
    )
}

/// Words, clauses as `f`, a certificate as `g`, and the status and the text of the run. A `;` is a line feed.
const ANSWERED: &str = "solve f | p cnf 2 2;1 2 0;-1 2 0; |  => 10 s SATISFIABLE
v -1 2 0
~
solve f | c first;p cnf 3 3;1;c within;-2 0 2;3 0 -3 0; |  => 10 s SATISFIABLE
v 1 2 -3 0
~
solve f | p cnf 0 0; |  => 10 s SATISFIABLE
v 0
~
solve f | p cnf 0 1 0 |  => 20 s UNSATISFIABLE
~
solve f | p cnf 1 2;1 0;-1 0; |  => 20 s UNSATISFIABLE
~
solve f --certificate out | p cnf 1 2;1 0;-1 0; |  => 20 s UNSATISFIABLE
and 0 accepted
~
solve f --certificate out | p cnf 2 4;1 2 0;1 -2 0;-1 2 0;-1 -2 0; |  => 20 s UNSATISFIABLE
and 0 accepted
~
solve f --certificate out | p cnf 1 1;1 0; |  => 10 s SATISFIABLE
v 1 0
~
check f g | p cnf 1 2;1 0;-1 0; | margrave-proof 2 0;0 1 2 0;qed; => 0 accepted
~
check f g | p cnf 1 2;1 0;-1 0; | margrave-proof 2 0;qed; => 1 refused: g:0: NotEmpty
~
check f g | p cnf 1 2;1 0;-1 0; | margrave-proof 2 0;0 1 0;qed; => 1 refused: g:0: Hint step 1 place 2
~
check f g | p cnf 1 2;1 0;-1 0; | margrave-proof 2 0;2 0 0;qed; => 1 refused: g:0: Variable step 1
~
check f g | p cnf 1 2;1 0;-1 0; | margrave-proof 2 0;d 3 0;qed; => 1 refused: g:0: Deletion item 1 place 1
~
check f g | p cnf 1 2;1 0;-1 0; | margrave-proof 2 0;0  1 2 0;qed; => 1 refused: g:2: Malformed
~
check f g | p cnf 1 2;1 0;-1 0; | margrave-proof 3 0;qed; => 1 refused: g:1: Version
~
check f g | p cnf 1 2;1 0; |  => 1 refused: f:3: Incomplete
~
solve f |  |  => 1 refused: f:1: Incomplete
~
solve f | p cnf 1 1;;1 x 0; |  => 1 refused: f:3: Syntax
~
solve f | p cnf 1 1;01 0; |  => 1 refused: f:2: Syntax
~
solve f | p sat 1 1;1 0; |  => 1 refused: f:1: Syntax
~
solve f | p cnf 1 1;c;2 0; |  => 1 refused: f:3: Variable
~
solve f | p cnf 1 1;1 0 1 0; |  => 1 refused: f:2: TooMany
~
solve f | p cnf 1 1;1 0;%;0; |  => 1 refused: f:3: Syntax
~
solve f | p cnf 1 1;1 0;0; |  => 1 refused: f:3: TooMany
~
solve f | p cnf 1 2;1 0;1; |  => 1 refused: f:4: Incomplete
~
solve x |  |  => 3 read fault: x
~
check f x | p cnf 1 1;1 0; |  => 3 read fault: x
~
gates 1000 |  |  => 0 1002 nodes
~
gates 0 |  |  => 0 2 nodes
~
solve f g |  |  => 2 usage: margrave_sat solve FILE [--certificate OUT] | check FILE CERTIFICATE | lists differ|widen FIRST SECOND | gates COUNT
~
gates -1 |  |  => 2 usage: margrave_sat solve FILE [--certificate OUT] | check FILE CERTIFICATE | lists differ|widen FIRST SECOND | gates COUNT
~
solve |  |  => 2 usage: margrave_sat solve FILE [--certificate OUT] | check FILE CERTIFICATE | lists differ|widen FIRST SECOND | gates COUNT
~
solve f --proof out |  |  => 2 usage: margrave_sat solve FILE [--certificate OUT] | check FILE CERTIFICATE | lists differ|widen FIRST SECOND | gates COUNT
~
";

fn push_answer(alloc: Global, row: &str, text: &mut String) -> Result<(), Fail> {
    push_row(alloc, row, MemSink::new(alloc), MemStore::new(alloc), text)
}

#[test]
fn commands_are_answered(rt: HostRuntime) -> Result<(), Fail> {
    let text = answered(rt.alloc(), ANSWERED, "~\n", push_answer)?;
    assert_eq!(rt; text.as_str(), ANSWERED);
    Ok(())
}

/// The same, where the first write takes three bytes and fails.
const CUT: &str = "solve f | p cnf 1 1;1 0; |  => 4 s S
~
solve f --certificate out | p cnf 1 2;1 0;-1 0; |  => 4 s Uand 0 accepted
~
solve x |  |  => 4 rea
~
check f g | p cnf 1 2;1 0;-1 0; | margrave-proof 2 0;0 1 2 0;qed; => 4 acc
~
gates 5 |  |  => 4 7 n
~
solve |  |  => 4 usa
~
";

fn push_cut(alloc: Global, row: &str, text: &mut String) -> Result<(), Fail> {
    let mut out = MemSink::new(alloc);
    out.fail_at(1, 3)?;
    push_row(alloc, row, out, MemStore::new(alloc), text)?;
    if !text.as_str().ends_with('\n') {
        text.push('\n')?;
    }
    Ok(())
}

#[test]
fn a_full_sink_ends_the_run(rt: HostRuntime) -> Result<(), Fail> {
    let text = answered(rt.alloc(), CUT, "~\n", push_cut)?;
    assert_eq!(rt; text.as_str(), CUT);
    Ok(())
}

/// The same, where the store refuses its first file: only a run that has one for it is touched.
const UNSTORED: &str = "solve f --certificate out | p cnf 1 2;1 0;-1 0; |  => 4 write fault: out
~
solve f --certificate out | p cnf 1 1;1 0; |  => 10 s SATISFIABLE
v 1 0
~
solve f | p cnf 1 2;1 0;-1 0; |  => 20 s UNSATISFIABLE
~
";

fn push_unstored(alloc: Global, row: &str, text: &mut String) -> Result<(), Fail> {
    let mut store = MemStore::new(alloc);
    store.fail_at(1)?;
    push_row(alloc, row, MemSink::new(alloc), store, text)
}

#[test]
fn a_failing_store_ends_the_run(rt: HostRuntime) -> Result<(), Fail> {
    let text = answered(rt.alloc(), UNSTORED, "~\n", push_unstored)?;
    assert_eq!(rt; text.as_str(), UNSTORED);
    Ok(())
}

/// A comparison, a configuration as `f`, another as `g`, and the status and the text of the run; of a model the two
/// verdicts, and the bits of the packet that are 1. A `;` is a line feed.
const COMPARED: &str =
    "lists differ f g | access-list 100 permit tcp any any; | access-list 100 permit tcp any any; => 20 s UNSATISFIABLE
~
lists differ f g | access-list 1 permit any; | hostname b;ip access-list standard other; remark all; permit any; => 20 s UNSATISFIABLE
~
lists differ f g | access-list 100 permit tcp any any eq 80; | access-list 100 permit tcp any any; => 10 -1 2 104 105
~
lists differ f g | access-list 100 permit tcp any any; | access-list 100 permit tcp any any eq 80; => 10 1 -2 104 105
~
lists widen f g | access-list 100 permit tcp any any eq 80; | access-list 100 permit tcp any any; => 10 -1 2 104 105
~
lists widen f g | access-list 100 permit tcp any any; | access-list 100 permit tcp any any eq 80; => 20 s UNSATISFIABLE
~
lists widen f g | access-list 1 permit any; | hostname b;access-list 1 permit; => 1 refused: g:2: NoConfiguration
~
lists differ f g | access-list 1 permit; | access-list 1 permit; => 1 refused: f:1: NoConfiguration
~
lists differ f g | access-list 1 permit any;access-list 2 permit any; | access-list 1 permit any; => 1 refused: f:0: NotOneList
~
lists differ f g | access-list 1 permit any; | hostname b; => 1 refused: g:0: NotOneList
~
lists differ f g | access-list 1 permit any; | ip access-list standard other; remark none; => 1 refused: g:0: NotOneList
~
lists differ x g |  | access-list 1 permit any; => 3 read fault: x
~
lists widen f x | access-list 1 permit any; |  => 3 read fault: x
~
lists same f g | access-list 1 permit any; | access-list 1 permit any; => 2 usage: margrave_sat solve FILE [--certificate OUT] | check FILE CERTIFICATE | lists differ|widen FIRST SECOND | gates COUNT
~
lists differ f | access-list 1 permit any; |  => 2 usage: margrave_sat solve FILE [--certificate OUT] | check FILE CERTIFICATE | lists differ|widen FIRST SECOND | gates COUNT
~
";

/// Writes the first two literals of a model, and of the next 126 those that are positive.
fn push_shown(literals: &str, text: &mut String) -> Result<(), Fail> {
    for (place, literal) in literals.split(' ').take(128).enumerate() {
        if place < 2 {
            write!(text, "{literal}")?;
        } else if !literal.starts_with('-') {
            write!(text, " {literal}")?;
        }
        if place == 0 {
            text.push(' ')?;
        }
    }
    text.push('\n')?;
    Ok(())
}

fn push_comparison(alloc: Global, row: &str, text: &mut String) -> Result<(), Fail> {
    let mut said = String::new(alloc);
    push_row(
        alloc,
        row,
        MemSink::new(alloc),
        MemStore::new(alloc),
        &mut said,
    )?;
    match said.as_str().split_once(" s SATISFIABLE\nv ") {
        Some((status, literals)) => {
            write!(text, "{status} ")?;
            push_shown(literals, text)
        }
        None => {
            text.push_str(said.as_str())?;
            Ok(())
        }
    }
}

#[test]
fn lists_are_compared(rt: HostRuntime) -> Result<(), Fail> {
    let text = answered(rt.alloc(), COMPARED, "~\n", push_comparison)?;
    assert_eq!(rt; text.as_str(), COMPARED);
    Ok(())
}
