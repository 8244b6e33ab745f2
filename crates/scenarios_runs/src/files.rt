use crate::slow::SlowFolder;
use mg_outside::{DiskFiles, FileFault, Files, MemFiles, SureFiles};
use std::alloc::Global;
use std::fs;
use std::test::Fail;
use test_tables::{answered, parted, push_bytes};

/// Writes the bytes that a read gave, or why it gave none.
fn push_read(text: &mut String, read: Result<Vec<u8>, FileFault>) -> Result<(), Fail> {
    match read {
        Ok(bytes) => push_bytes(text, bytes.as_slice()),
        Err(FileFault::TooLong { given }) => Ok(write!(text, "too long {given}")?),
        Err(FileFault::Failed) => Ok(text.push_str("failed")?),
        Err(FileFault::NoMemory) => Ok(text.push_str("no memory")?),
    }
}

/// The table with what the reads give that it asks for, one after another: a row is the name of the file, the number of
/// bytes that it may have, and the answer.
fn readings<F: Files>(alloc: Global, files: &mut F, table: &str) -> Result<String, Fail> {
    answered(alloc, table, "\n", |alloc, asked, text| {
        let (name, max) = parted(asked)?;
        push_read(text, files.read(alloc, name, max.parse::<u64>()?))
    })
}

const REAL: &str = "four 4 => text
four 3 => too long 4
none 3 => failed
";

#[test]
fn real_files_are_read_whole(rt: HostRuntime) -> Result<(), Fail> {
    fs::write(&rt, "four", "text")?;
    let mut files = DiskFiles::new(rt.alloc(), &rt);
    let text = readings(rt.alloc(), &mut files, REAL)?;
    fs::remove_file(&rt, "four")?;
    assert_eq!(rt; text.as_str(), REAL);
    Ok(())
}

/// What the reads of a folder give that has the bytes `text` under each name.
fn slow_readings(alloc: Global, last: usize, table: &str) -> Result<String, Fail> {
    let mut files = DiskFiles::over(SlowFolder::new(alloc, b"text", last));
    readings(alloc, &mut files, table)
}

const PIECES: &str = "four 4 => text
four 2 => too long 3
";

#[test]
fn pieces_of_a_file_are_joined(rt: HostRuntime) -> Result<(), Fail> {
    let text = slow_readings(rt.alloc(), 9, PIECES)?;
    assert_eq!(rt; text.as_str(), PIECES);
    Ok(())
}

const LAST_FAILS: &str = "four 4 => failed
four 2 => too long 3
";

#[test]
fn a_read_fails_within_a_file(rt: HostRuntime) -> Result<(), Fail> {
    let text = slow_readings(rt.alloc(), 1, LAST_FAILS)?;
    assert_eq!(rt; text.as_str(), LAST_FAILS);
    Ok(())
}

/// Files in memory whose second read fails.
fn files_that_fail(alloc: Global) -> Result<MemFiles, Fail> {
    let mut files = MemFiles::new(alloc);
    files.put("four", b"old")?;
    files.put("four", b"text")?;
    files.put("five", b"texts")?;
    files.fail_at(2)?;
    Ok(files)
}

const IN_MEMORY: &str = "four 4 => text
four 4 => failed
five 4 => too long 5
none 4 => failed
";

#[test]
fn files_in_memory_fail_where_they_are_told(rt: HostRuntime) -> Result<(), Fail> {
    let mut files = files_that_fail(rt.alloc())?;
    let text = readings(rt.alloc(), &mut files, IN_MEMORY)?;
    assert_eq!(rt; text.as_str(), IN_MEMORY);
    Ok(())
}

/// What the reads give of files whose reads never fail, with one name among them.
fn sure_readings(alloc: Global, table: &str) -> Result<String, Fail> {
    let mut files = SureFiles::new(alloc);
    files.put("four", b"text")?;
    readings(alloc, &mut files, table)
}

const SURE: &str = "four 4 => text
none 4 => \n";

#[test]
fn sure_files_never_fail(rt: HostRuntime) -> Result<(), Fail> {
    let text = sure_readings(rt.alloc(), SURE)?;
    assert_eq!(rt; text.as_str(), SURE);
    Ok(())
}
