use crate::slow::SlowOutput;
use mg_outside::{MemSink, Sink, SinkFault, StdSink, SureSink};
use std::alloc::Global;
use std::test::Fail;
use test_tables::{answered, push_bytes};

fn name_of(written: Result<(), SinkFault>) -> &'static str {
    match written {
        Ok(()) => "taken",
        Err(SinkFault::Failed) => "failed",
        Err(SinkFault::NoMemory) => "no memory",
    }
}

/// The table with what the writes say, one after another: a row is the bytes, and the answer.
fn writings<S: Sink>(alloc: Global, sink: &mut S, table: &str) -> Result<String, Fail> {
    answered(alloc, table, "\n", |_, bytes, text| {
        Ok(text.push_str(name_of(sink.write_all(bytes.as_bytes())))?)
    })
}

#[test]
fn standard_output_takes_bytes(rt: HostRuntime) -> Result<(), Fail> {
    let mut out = StdSink::new(&rt);
    assert_eq!(rt; out.write_all(b"text\n"), Ok(()));
    Ok(())
}

/// An output that takes five bytes.
const PIECES: &str = " => taken
text => taken
 more => failed
";

#[test]
fn pieces_are_written_to_the_end(rt: HostRuntime) -> Result<(), Fail> {
    let mut out = StdSink::over(SlowOutput::new(rt.alloc(), 5));
    let text = writings(rt.alloc(), &mut out, PIECES)?;
    assert_eq!(rt; text.as_str(), PIECES);
    Ok(())
}

/// What the writes say to a sink in memory whose second write fails behind three bytes, and what it has taken.
fn failing_writings(alloc: Global, table: &str) -> Result<String, Fail> {
    let mut out = MemSink::new(alloc);
    out.fail_at(2, 3)?;
    let mut text = writings(alloc, &mut out, table)?;
    push_bytes(&mut text, out.bytes())?;
    Ok(text)
}

const IN_MEMORY: &str = "first  => taken
second => failed
ond => taken
first second";

#[test]
fn sinks_in_memory_fail_where_they_are_told(rt: HostRuntime) -> Result<(), Fail> {
    let text = failing_writings(rt.alloc(), IN_MEMORY)?;
    assert_eq!(rt; text.as_str(), IN_MEMORY);
    Ok(())
}

/// What the writes say to a sink that never fails, and what it has taken.
fn sure_writings(alloc: Global, table: &str) -> Result<String, Fail> {
    let mut out = SureSink::new(alloc);
    let mut text = writings(alloc, &mut out, table)?;
    push_bytes(&mut text, out.bytes())?;
    Ok(text)
}

const SURE: &str = "all => taken
all";

#[test]
fn sure_sinks_never_fail(rt: HostRuntime) -> Result<(), Fail> {
    let text = sure_writings(rt.alloc(), SURE)?;
    assert_eq!(rt; text.as_str(), SURE);
    Ok(())
}
