use mg_outside::{Files, MemFiles, MemSink};
use session::{behind_name, run};
use std::alloc::Global;
use std::test::Fail;
use test_tables::push_bytes;

/// A script of three questions over the lists below, and the text of its run.
pub(crate) const SCRIPT: &str = "LOAD IOS \"a\" AS r;
EXPLORE r.acl.10:permit(<req>) AND src_in IN 10.1.1.4 0.0.0.1;
SHOW ONE;
DECIDE r.acl.10 (10.1.1.5, 0.0.0.0, 0, 0, 0, 0, 0, 0);
";

pub(crate) const LISTS: &str = "access-list 10 deny host 10.1.1.5
access-list 10 permit 10.1.1.0 0.0.0.255
access-list 12 remark x
";

const OTHER_LISTS: &str = "access-list 10 permit any
";

pub(crate) const ANSWER: &str =
    "loaded r: 0 interfaces, 1 lists, 0 translations, 0 routes, 0 lines ignored
scenario 1
  entry = 0
  src_in = 10.1.1.4
  dst_in = 0.0.0.0
  sport_in = 0
  dport_in = 0
  proto = 0
  flags = 0
  icmp_type = 0
  icmp_code = 0
  src_out = 0.0.0.0
  dst_out = 0.0.0.0
  sport_out = 0
  dport_out = 0
  next_hop = 0.0.0.0
  exit = 0
  + src_in IN 10.1.1.4 0.0.0.1
deny by 10
";

/// What the run of LOAD IOS writes where a router named `r` has one list that is defined.
pub(crate) const LOADED: &str =
    "loaded r: 0 interfaces, 1 lists, 0 translations, 0 routes, 0 lines ignored
";

/// The command `margrave` with one word.
pub(crate) fn command(alloc: Global, word: &str) -> Result<Vec<String>, Fail> {
    let mut words = Vec::new(alloc);
    words.push(String::from_str(alloc, "margrave")?)?;
    words.push(String::from_str(alloc, word)?)?;
    Ok(words)
}

/// The script `s`, these lists as `a`, and others as `b`.
pub(crate) fn files_of(alloc: Global, script: &str, lists: &str) -> Result<MemFiles, Fail> {
    let mut files = MemFiles::new(alloc);
    files.put("s", script.as_bytes())?;
    files.put("a", lists.as_bytes())?;
    files.put("b", OTHER_LISTS.as_bytes())?;
    Ok(files)
}

/// Writes the status of the command with this word, a blank, and all that the sink has taken.
pub(crate) fn push_command<F: Files>(
    alloc: Global,
    word: &str,
    files: &mut F,
    mut out: MemSink,
    text: &mut String,
) -> Result<(), Fail> {
    let words = command(alloc, word)?;
    let ended = run(alloc, behind_name(words.as_slice()), files, &mut out);
    write!(text, "{} ", ended.status)?;
    push_bytes(text, out.bytes())
}

/// Writes the status and the text of the run of this script, where `a` has these lists.
pub(crate) fn push_run(
    alloc: Global,
    script: &str,
    lists: &str,
    text: &mut String,
) -> Result<(), Fail> {
    let mut files = files_of(alloc, script, lists)?;
    push_command(alloc, "s", &mut files, MemSink::new(alloc), text)
}

/// Writes the text of a run briefly: the values of a scenario's fields on one line, without their names.
pub(crate) fn push_brief(text: &mut String, run: &str) -> Result<(), Fail> {
    let mut rest = run;
    for _ in 0..run.len() {
        let Some((line, others)) = rest.split_once('\n') else {
            break;
        };
        push_brief_line(text, line)?;
        rest = others;
    }
    Ok(text.push_str(rest)?)
}

/// Writes the line, and of a field the value alone. The last field ends the line.
fn push_brief_line(text: &mut String, line: &str) -> Result<(), Fail> {
    let Some((name, value)) = line.split_once(" = ") else {
        return Ok(write!(text, "{line}\n")?);
    };
    let end = if name == "  exit" { '\n' } else { ' ' };
    Ok(write!(text, "{value}{end}")?)
}
