//! The adapters over readers and writers that fail, give little and take little.
use super::{FIRST_LINE, PORT_READ, TRACE, words};
use crate::{Failed, ReaderSource, Sink, Source, Status, WriterSink, run};
use std::alloc::Global;
use std::io::{self, Cursor, ErrorKind, Read, Write};
use std::test::Fail;

/// Gives so few bytes at a call, fails at one call, counted from 0, and goes on behind it as if nothing had been.
#[derive(Drop)]
struct Halting {
    text: Cursor<&'static [u8]>,
    at_once: usize,
    failing: u64,
    calls: u64,
}

impl Halting {
    fn new(at_once: usize, failing: u64) -> Halting {
        Halting {
            text: Cursor::new(PORT_READ.as_bytes()),
            at_once,
            failing,
            calls: 0,
        }
    }
}

impl Read for Halting {
    fn read(&mut self, buf: &mut [u8]) -> io::Result<usize> {
        let call = self.calls;
        self.calls = call.saturating_add(1);
        if call == self.failing {
            return Err(io::Error::from(ErrorKind::WouldBlock));
        }
        let count = buf.len().min(self.at_once);
        self.text.read(&mut buf[..count])
    }
}

/// The bytes that a call gives.
const AT_ONCE: usize = 16;

/// The calls that it takes to read the 81 bytes of the text so, the last of which meets the end.
const CALLS: u64 = 7;

fn ran_over(alloc: Global, reader: Halting) -> Result<(Status, Vec<u8>), Fail> {
    let mut source = ReaderSource::new(reader);
    let mut bytes = Vec::new(alloc);
    let mut sink = WriterSink::new(&mut bytes);
    let status = run(alloc, &words(alloc, "run")?, &mut source, &mut sink);
    Ok((status, bytes))
}

#[test]
fn a_reader_that_fails_at_each_call(rt: HostRuntime) -> Result<(), Fail> {
    for failing in 0..CALLS {
        let (status, bytes) = ran_over(rt.alloc(), Halting::new(AT_ONCE, failing))?;
        assert_eq!(rt; status, Status::ReadFault);
        assert!(rt; bytes.is_empty());
    }
    let (status, bytes) = ran_over(rt.alloc(), Halting::new(AT_ONCE, CALLS))?;
    assert_eq!(rt; status, Status::Ok);
    assert_eq!(rt; bytes.as_slice(), TRACE);
    Ok(())
}

#[test]
fn a_source_goes_on_behind_an_error(rt: HostRuntime) -> Result<(), Fail> {
    let mut source = ReaderSource::new(Halting::new(AT_ONCE, 1));
    let mut piece = [0u8; 8];
    assert_eq!(rt; source.read(&mut piece), Ok(8));
    assert_eq!(rt; piece.as_slice(), b"x86emu 1".as_slice());
    assert_eq!(rt; source.read(&mut piece), Err(Failed));
    assert_eq!(rt; source.read(&mut piece), Ok(8));
    assert_eq!(rt; piece.as_slice(), b"\nram 0 1".as_slice());
    Ok(())
}

/// Takes so few bytes at a call, and at one call, counted from 0, fails or takes nothing.
#[derive(Drop)]
struct Filling {
    bytes: Vec<u8>,
    at_once: usize,
    failing: u64,
    takes_nothing: bool,
    calls: u64,
}

impl Filling {
    fn new(alloc: Global, at_once: usize, failing: u64, takes_nothing: bool) -> Filling {
        Filling {
            bytes: Vec::new(alloc),
            at_once,
            failing,
            takes_nothing,
            calls: 0,
        }
    }
}

impl Write for Filling {
    fn write(&mut self, buf: &[u8]) -> io::Result<usize> {
        let call = self.calls;
        self.calls = call.saturating_add(1);
        if call == self.failing {
            return if self.takes_nothing {
                Ok(0)
            } else {
                Err(io::Error::from(ErrorKind::StorageFull))
            };
        }
        let count = buf.len().min(self.at_once);
        self.bytes.extend_from_slice(&buf[..count])?;
        Ok(count)
    }

    fn flush(&mut self) -> io::Result<()> {
        Ok(())
    }
}

fn ran_into(alloc: Global, writer: &mut Filling) -> Result<Status, Fail> {
    let mut source = ReaderSource::new(Cursor::new(PORT_READ.as_bytes()));
    let mut sink = WriterSink::new(writer);
    Ok(run(alloc, &words(alloc, "run")?, &mut source, &mut sink))
}

/// The number of each line of the trace, and what stands before it.
const FRONTS: [(u64, &[u8]); 3] = [
    (0, b""),
    (1, FIRST_LINE),
    (
        2,
        b"io port r 60 1 41 2\nstep in 1 rip=7c02 flags=2 rax=41\n",
    ),
];

#[test]
fn a_writer_that_fails_at_each_line(rt: HostRuntime) -> Result<(), Fail> {
    let alloc = rt.alloc();
    for takes_nothing in [false, true] {
        for (failing, front) in FRONTS {
            let mut writer = Filling::new(alloc, 1024, failing, takes_nothing);
            assert_eq!(rt; ran_into(alloc, &mut writer)?, Status::WriteFault);
            assert_eq!(rt; writer.bytes.as_slice(), front);
        }
        let mut writer = Filling::new(alloc, 1024, 3, takes_nothing);
        assert_eq!(rt; ran_into(alloc, &mut writer)?, Status::Ok);
        assert_eq!(rt; writer.bytes.as_slice(), TRACE);
    }
    Ok(())
}

#[test]
fn a_writer_that_takes_little(rt: HostRuntime) -> Result<(), Fail> {
    let alloc = rt.alloc();
    let mut writer = Filling::new(alloc, 7, 1_000, false);
    assert_eq!(rt; ran_into(alloc, &mut writer)?, Status::Ok);
    assert_eq!(rt; writer.bytes.as_slice(), TRACE);
    let mut writer = Filling::new(alloc, 7, 6, false);
    assert_eq!(rt; ran_into(alloc, &mut writer)?, Status::WriteFault);
    assert_eq!(rt;
        writer.bytes.as_slice(),
        b"io port r 60 1 41 2\nstep in 1 rip=7c02 fl".as_slice()
    );
    Ok(())
}
