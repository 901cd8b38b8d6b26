use crate::tables::Row;
use hx_io::{
    MemSink, MemSource, ReadAllError, Sink, Source, StdSink, StdSource, read_all, write_all,
};
use std::alloc::{AllocError, Global};
use std::io;
use std::io::{ErrorKind, Read, Write};
use std::process::Abort;
use std::test::Fail;

fn listed(alloc: Global, call: Option<u64>) -> Result<Vec<u64>, AllocError> {
    let mut calls = Vec::new(alloc);
    if let Some(call) = call {
        calls.push(call)?;
    }
    Ok(calls)
}

// How many bytes there are and how many may be read, the call that fails, and what comes of it. The second read of 8,192 bytes is
// the first that comes in mid-stream.
const READS: &str = "\
0 0 none read
5 5 none read
5 4 none toolong
5 9 1 failed
5 9 2 failed
5 9 3 read
20000 20000 none read
20000 19999 none toolong
20000 20000 2 failed";

fn reads(alloc: Global, mut row: Row) -> Result<bool, Fail> {
    let length = row.number().unwrap_or(0) as usize;
    let limit = row.number().unwrap_or(0) as usize;
    let fails = listed(alloc, row.number())?;
    let mut source = MemSource::new(vec![in alloc; 7u8; length]?, fails);
    let end = match read_all(alloc, &mut source, limit) {
        Ok(read) => {
            if read.len() == length {
                "read"
            } else {
                "read less"
            }
        }
        Err(ReadAllError::TooLong) => "toolong",
        Err(ReadAllError::ReadFault) => "failed",
        Err(ReadAllError::NoMemory) => "no memory",
    };
    Ok(row.field() == end)
}

// The room of a sink, the call that fails, whether eleven bytes are written, and what the sink holds then.
const WRITES: &str = "\
11 none yes =hello%20world
11 1 no =
5 none no =hello
0 none no =
11 2 yes =hello%20world";

fn writes(alloc: Global, mut row: Row) -> Result<bool, Fail> {
    let room = row.number().unwrap_or(0) as usize;
    let fails = listed(alloc, row.number())?;
    let mut sink = MemSink::new(alloc, room, fails)?;
    let ok = write_all(&mut sink, b"hello world").is_ok();
    let is_as_said = ok == (row.field() == "yes");
    Ok(is_as_said && row.has(alloc, sink.bytes())?)
}

#[test]
fn a_source_is_read_to_its_end_or_limit_and_a_sink_takes_all_or_a_front(
    rt: HostRuntime,
) -> Result<(), Fail> {
    for line in READS.lines() {
        assert!(rt; reads(rt.alloc(), Row::new(line))?, "{line}");
    }
    for line in WRITES.lines() {
        assert!(rt; writes(rt.alloc(), Row::new(line))?, "{line}");
    }
    Ok(())
}

/// A reader and a writer whose first call is interrupted.
#[derive(Drop)]
struct Interrupted {
    was_called: bool,
}

impl Interrupted {
    fn call(&mut self) -> io::Result<()> {
        let is_first = !self.was_called;
        self.was_called = true;
        if is_first {
            return Err(io::Error::from(ErrorKind::Interrupted));
        }
        Ok(())
    }
}

impl Read for Interrupted {
    fn read(&mut self, _: &mut [u8]) -> io::Result<usize> {
        self.call()?;
        Ok(0)
    }
}

impl Write for Interrupted {
    fn write(&mut self, _: &[u8]) -> io::Result<usize> {
        self.call()?;
        Ok(0)
    }

    fn flush(&mut self) -> io::Result<()> {
        Ok(())
    }
}

fn interrupted_calls_fail(rt: &impl Abort) {
    let mut source = StdSource::new(Interrupted { was_called: false });
    assert!(rt; source.read(&mut [0]).is_err());
    assert!(rt; source.read(&mut [0]) == Ok(0));

    let mut sink = StdSink::new(Interrupted { was_called: false });
    assert!(rt; sink.write(b"").is_err());
    assert!(rt; sink.write(b"") == Ok(0));
}

#[test]
fn readers_and_writers_of_std_are_sources_and_sinks_and_an_interrupted_call_fails(
    rt: HostRuntime,
) -> Result<(), Fail> {
    let alloc = rt.alloc();
    let mut source = StdSource::new(b"hello".as_slice());
    let read = read_all(alloc, &mut source, 5)?;
    assert!(rt; read.as_slice() == b"hello".as_slice());

    let mut sink = StdSink::new(Vec::new(alloc));
    assert!(rt; write_all(&mut sink, &read).is_ok());
    assert!(rt; sink.into_inner().as_slice() == b"hello".as_slice());

    let mut full = StdSink::new(io::Cursor::new([0u8; 2]));
    assert!(rt; full.write(b"abc") == Ok(2));
    assert!(rt; full.write(b"c").is_err());
    interrupted_calls_fail(&rt);
    Ok(())
}
