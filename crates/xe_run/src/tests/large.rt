//! Texts that take much memory: no clause says that it is there.
use super::words;
use crate::{ListSource, Status, VecSink, run};
use std::alloc::Global;
use std::test::Fail;

const FRONT: &[u8] = b"x86emu 1\nram 0 10000\npoke 7c00 f4\nreg rip 7c00\nrun 1\n";

const TRACE: &[u8] = b"step hlt 1 rip=7c01 flags=2 retire=4\n";

/// What is answered and written for a small scene with line feeds behind it, as many bytes in all.
fn ran(alloc: Global, asked: &str, length: usize) -> Result<(Status, Vec<u8>), Fail> {
    let mut text = Vec::new(alloc);
    text.extend_from_slice(FRONT)?;
    text.resize(length, b'\n')?;
    let mut source = ListSource::new(text, Vec::new(alloc));
    let mut sink = VecSink::new(Vec::with_capacity(alloc, 256)?, Vec::new(alloc));
    let status = run(alloc, &words(alloc, asked)?, &mut source, &mut sink);
    Ok((status, sink.into_bytes()))
}

#[test]
fn a_long_text_runs(rt: HostRuntime) -> Result<(), Fail> {
    for length in [4_096, 65_536, 65_537, 262_145, 1_048_576] {
        let (status, bytes) = ran(rt.alloc(), "run", length)?;
        assert_eq!(rt; status, Status::Ok);
        assert_eq!(rt; bytes.as_slice(), TRACE);
        let (status, bytes) = ran(rt.alloc(), "check", length)?;
        assert_eq!(rt; status, Status::Ok);
        assert_eq!(rt; bytes.as_slice(), b"ok\n".as_slice());
    }
    Ok(())
}

#[test]
fn a_text_that_is_too_long_is_refused(rt: HostRuntime) -> Result<(), Fail> {
    let (status, bytes) = ran(rt.alloc(), "run", 1_048_577)?;
    assert_eq!(rt; status, Status::Refused);
    assert_eq!(rt;
        bytes.as_slice(),
        b"refused line 1048529 reason 14 too long\n".as_slice()
    );
    Ok(())
}
