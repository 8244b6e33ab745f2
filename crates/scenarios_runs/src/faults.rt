use crate::run_of::{ANSWER, LISTS, SCRIPT, command, files_of, push_brief, push_command};
use mg_outside::{MemFiles, MemSink, SureFiles, SureSink};
use session::{behind_name, run};
use std::alloc::Global;
use std::test::Fail;
use test_tables::answered;

fn push_without_files(alloc: Global, word: &str, text: &mut String) -> Result<(), Fail> {
    push_command(
        alloc,
        word,
        &mut MemFiles::new(alloc),
        MemSink::new(alloc),
        text,
    )
}

/// The word of a command that finds no files, with the status and the text of its run. A dash alone names a file.
const WORDS: &str = "s => 3 read fault: s
~
- => 3 read fault: -
~
--help => 2 usage: margrave SCRIPT
~
-x => 2 usage: margrave SCRIPT
~
";

#[test]
fn a_missing_script_and_bad_words_are_told(rt: HostRuntime) -> Result<(), Fail> {
    let text = answered(rt.alloc(), WORDS, "~\n", push_without_files)?;
    assert_eq!(rt; text.as_str(), WORDS);
    Ok(())
}

fn push_cut(alloc: Global, given: &str, text: &mut String) -> Result<(), Fail> {
    let (call, after) = given.split_once(' ').ok_or("no number of bytes")?;
    let mut out = MemSink::new(alloc);
    out.fail_at(call.parse::<u64>()?, after.parse::<u64>()?)?;
    let mut files = files_of(alloc, SCRIPT, LISTS)?;
    let mut taken = String::new(alloc);
    push_command(alloc, "s", &mut files, out, &mut taken)?;
    push_brief(text, taken.as_str())
}

/// Which write fails, and after how many bytes, with the status and all that the sink took, briefly: a front of the run's
/// text.
const CUT: &str = "1 5 => 4 loade~
2 5 => 4 loaded r: 0 interfaces, 1 lists, 0 translations, 0 routes, 0 lines ignored
scena~
3 5 => 4 loaded r: 0 interfaces, 1 lists, 0 translations, 0 routes, 0 lines ignored
scenario 1
0 10.1.1.4 0.0.0.0 0 0 0 0 0 0 0.0.0.0 0.0.0.0 0 0 0.0.0.0 0
  + src_in IN 10.1.1.4 0.0.0.1
deny ~
";

#[test]
fn a_failing_sink_is_left_with_a_front(rt: HostRuntime) -> Result<(), Fail> {
    let text = answered(rt.alloc(), CUT, "~\n", push_cut)?;
    assert_eq!(rt; text.as_str(), CUT);
    Ok(())
}

/// Whether a run over files and a sink that never fail wrote all of its text, or wanted memory and wrote a front of it.
fn is_whole_or_wants(alloc: Global) -> Result<bool, Fail> {
    let words = command(alloc, "s")?;
    let mut files = SureFiles::new(alloc);
    files.put("s", SCRIPT.as_bytes())?;
    files.put("a", LISTS.as_bytes())?;
    let mut out = SureSink::new(alloc);
    let ended = run(alloc, behind_name(words.as_slice()), &mut files, &mut out);
    let is_whole = out.bytes() == ANSWER.as_bytes();
    let is_front = ANSWER.as_bytes().starts_with(out.bytes());
    Ok(ended.status == 0 && is_whole || ended.status == 5 && is_front)
}

/// Run with allocations refused one at a time, this shows that want of memory is status 5 and leaves a front.
#[test]
fn want_of_memory_leaves_a_front(rt: HostRuntime) -> Result<(), Fail> {
    let holds = is_whole_or_wants(rt.alloc())?;
    assert!(rt; holds);
    Ok(())
}
