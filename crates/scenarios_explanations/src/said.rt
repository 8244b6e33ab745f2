use explanations::{Names, Standing, explain};
use mg_outside::{MemFiles, MemSink};
use session::run;
use std::alloc::Global;
use std::test::Fail;
use test_tables::answered;

/// A script `s` and a configuration `a`, which are files, and nothing else.
#[derive(Drop)]
struct TwoFiles;

impl Names for TwoFiles {
    fn standing(&self, name: &str) -> Standing {
        match name {
            "s" | "a" => Standing::File,
            _ => Standing::Nothing,
        }
    }
}

/// Writes the status of the run of a script over a configuration, and what is said about its end. A bar parts the two.
fn push_said(alloc: Global, given: &str, text: &mut String) -> Result<(), Fail> {
    let (script, config) = given.split_once('|').ok_or("a row without a bar")?;
    let mut files = MemFiles::new(alloc);
    files.put("s", script.as_bytes())?;
    files.put("a", config.as_bytes())?;
    let words = [String::from_str(alloc, "s")?];
    let ended = run(alloc, &words, &mut files, &mut MemSink::new(alloc));
    let said = explain(alloc, &words, &ended, &mut files, &TwoFiles)?;
    write!(text, "{} {}", ended.status, said.as_str())?;
    Ok(())
}

const SAID: &str = "LOAD IOS \"a\" AS r;|access-list 10 permit any => 0 ~
LOAD IOS \"a\" AS r;|acces-list 10 permit any => 0 note: this line is ignored, and is almost one that is read
 --> a:1
  | acces-list 10 permit any
  | ^^^^^^^^^^
  = write access-list, if that is meant
note: the configuration has no access list with an entry
 --> a
  = entries are lines `access-list N permit ...`, or stand indented under `ip access-list`
~
LOAD IOS \"a\" AS r;
show one;|access-list 10 permit any => 1 error: no script goes on like this
 --> s:2
  | show one;
  | ^^^^
  = SHOW is probably meant; keywords are in capitals
~
LOAD IOS \"a\" AS r;|access-list 110 permit tcp any any eq http => 1 error: this name is not known here
 --> a:1
  | access-list 110 permit tcp any any eq http
  |                                       ^^^^
  = write www for http
~
LOAD IOS \"a\" AS r;
EXPLORE r.acl.9:permit(<req>);|access-list 10 permit any => 1 error: no policy of this name is loaded
 --> s:2
  | EXPLORE r.acl.9:permit(<req>);
  |         ^^^^^^^
  = r has the lists 10; a list is written r.acl.NAME
~
LOAD IOS \"b\" AS r;| => 3 error: there is no file of this name
 --> s:1
  | LOAD IOS \"b\" AS r;
  |          ^^^
  = names count from the folder that you are in, also those behind LOAD IOS
~
";

#[test]
fn ends_are_explained(rt: HostRuntime) -> Result<(), Fail> {
    let text = answered(rt.alloc(), SAID, "~\n", |alloc, given, text| {
        push_said(alloc, given, text)
    })?;
    assert_eq!(rt; text.as_str(), SAID);
    Ok(())
}
