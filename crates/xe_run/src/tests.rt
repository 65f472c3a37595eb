mod adapters;
mod large;

use super::*;
use std::alloc::Global;
use std::io::Cursor;
use std::test::Fail;

const PORT_READ: &str =
    "x86emu 1\nram 0 10000\npoke 7c00 e460f4\nreg rip 7c00\ndev port r 60 wait wait 41\nrun 10\n";

const FIRST_LINE: &[u8] = b"io port r 60 1 41 2\n";

const TRACE: &[u8] =
    b"io port r 60 1 41 2\nstep in 1 rip=7c02 flags=2 rax=41\nstep hlt 1 rip=7c03 flags=2 retire=4\n";

fn words(alloc: Global, text: &str) -> Result<Vec<String>, Fail> {
    let mut words = Vec::new(alloc);
    for word in text.split(' ') {
        words.push(String::from_str(alloc, word)?)?;
    }
    Ok(words)
}

fn numbers(alloc: Global, list: &[u64]) -> Result<Vec<u64>, Fail> {
    Ok(list.to_vec(alloc)?)
}

/// Runs the words over a text, with the reads and writes of these numbers failing.
fn ran(
    alloc: Global,
    asked: &str,
    text: &str,
    failing_reads: &[u64],
    failing_writes: &[u64],
) -> Result<(Status, Vec<u8>, u64), Fail> {
    let words = words(alloc, asked)?;
    let mut src = ListSource::new(
        text.as_bytes().to_vec(alloc)?,
        numbers(alloc, failing_reads)?,
    );
    let mut out = VecSink::new(
        Vec::with_capacity(alloc, 1024)?,
        numbers(alloc, failing_writes)?,
    );
    let status = run(alloc, &words, &mut src, &mut out);
    Ok((status, out.into_bytes(), src.calls()))
}

#[test]
fn runs_a_scene(rt: HostRuntime) -> Result<(), Fail> {
    let (status, bytes, _) = ran(rt.alloc(), "run", PORT_READ, &[], &[])?;
    assert_eq!(rt; status, Status::Ok);
    assert_eq!(rt; bytes.as_slice(), TRACE);
    Ok(())
}

/// A store in two device accesses, of which the second fails once; and a step that isn't the one whose
/// answers were kept.
const CALLS: &str =
    "x86emu 1\nram 0 10000\npoke 100 66a30200\nreg rip 100\nreg rax 44332211\nseg ds 2000 20000 ffff 93\ndev mem w 20004 fail\ncall\ncall\npoke 200 e460f4\nreg rip 200\ndev port r 60 wait 7\ncall\nreg rip 202\ncall\nreg rip 200\ncall\n";

const CALLS_TRACE: &[u8] =
    b"io mem w 20002 2 2211 0\nbusfault mov mem w 20004 2 4433\nio mem w 20004 2 4433 0\nstep mov 1 rip=104 flags=2\npending in port r 60 1 0\ndiverged hlt 0 port r 60 1 0 -\nio port r 60 1 7 0\nstep in 1 rip=202 flags=2 rax=44332207\n";

#[test]
fn calls_go_on_with_a_suspended_step(rt: HostRuntime) -> Result<(), Fail> {
    let (status, bytes, _) = ran(rt.alloc(), "run", CALLS, &[], &[])?;
    assert_eq!(rt; status, Status::Ok);
    assert_eq!(rt; bytes.as_slice(), CALLS_TRACE);
    Ok(())
}

/// A device that fails ends a run, and a run gives up the step that an earlier call has suspended.
const FAILURES: &str =
    "x86emu 1\nram 0 10000\npoke 100 e460e461\nreg rip 100\ndev port r 60 wait fail wait 7\nrun 3\ncall\nrun 1\n";

const FAILURES_TRACE: &[u8] =
    b"busfault in port r 60 1 0\npending in port r 60 1 0\nio port r 60 1 7 0\nstep in 1 rip=102 flags=2 rax=7\n";

#[test]
fn a_failing_device_ends_a_run(rt: HostRuntime) -> Result<(), Fail> {
    let (status, bytes, _) = ran(rt.alloc(), "run", FAILURES, &[], &[])?;
    assert_eq!(rt; status, Status::Ok);
    assert_eq!(rt; bytes.as_slice(), FAILURES_TRACE);
    Ok(())
}

/// A port that is intercepted, and one that isn't any more; a batch, of which an instruction that leaves
/// nothing to be done uses one step; and a read that waits.
const INTERCEPTS: &str =
    "x86emu 1\nram 0 10000\npoke 100 e460e460f4\nreg rip 100\nicpt ioio\nioport 60 60\nbatch 5\nrun 9\nunicpt ioio\ndev port r 60 wait 41\nrun 2\nicpt hlt\nicptmsr r 10\nrun 3\n";

const INTERCEPTS_TRACE: &[u8] =
    b"exit in 7b 600091 102\nio port r 60 1 41 1\nstep in 1 rip=102 flags=2 rax=41\nio port r 60 1 ff 0\nstep in 1 rip=104 flags=2 rax=ff\nexit hlt 78 0 0\n";

#[test]
fn runs_with_intercepts_and_batches(rt: HostRuntime) -> Result<(), Fail> {
    let (status, bytes, _) = ran(rt.alloc(), "run", INTERCEPTS, &[], &[])?;
    assert_eq!(rt; status, Status::Ok);
    assert_eq!(rt; bytes.as_slice(), INTERCEPTS_TRACE);
    Ok(())
}

#[test]
fn refuses_a_bad_line(rt: HostRuntime) -> Result<(), Fail> {
    let (status, bytes, _) = ran(rt.alloc(), "run", "x86emu 1\nrun 1\nbatch 1001\n", &[], &[])?;
    assert_eq!(rt; status, Status::Refused);
    assert_eq!(rt;
        bytes.as_slice(),
        b"refused line 3 reason 8 bad number\n".as_slice()
    );
    Ok(())
}

/// What `check` writes for a text.
fn checked(alloc: Global, text: &str) -> Result<Vec<u8>, Fail> {
    let (_, bytes, _) = ran(alloc, "check", text, &[], &[])?;
    Ok(bytes)
}

/// A text for each reason but for length, and one that is accepted; without a last newline.
const CHECKS: [(&str, &str); 16] = [
    ("x86emu 1", "ok\n"),
    ("", "refused line 1 reason 1 header\n"),
    (
        "x86emu 1\nram 0\t1000",
        "refused line 2 reason 2 bad byte\n",
    ),
    (
        "x86emu 1\n#########################################################################################################################################################################################################",
        "refused line 2 reason 3 long line\n",
    ),
    ("x86emu 1\nshow \nstop", "refused line 2 reason 4 spacing\n"),
    (
        "x86emu 1\nstop",
        "refused line 2 reason 5 unknown command\n",
    ),
    (
        "x86emu 1\nreg rax",
        "refused line 2 reason 6 wrong number of words\n",
    ),
    (
        "x86emu 1\nreg ax x",
        "refused line 2 reason 7 unknown name\n",
    ),
    (
        "x86emu 1\nreg cpl 100",
        "refused line 2 reason 8 bad number\n",
    ),
    (
        "x86emu 1\nram 0 1000\npoke 0 1",
        "refused line 3 reason 9 bad bytes\n",
    ),
    (
        "x86emu 1\nram 0 1000\nram 800 1000",
        "refused line 3 reason 10 bad region\n",
    ),
    (
        "x86emu 1\nram 0 1001000",
        "refused line 2 reason 11 too much ram\n",
    ),
    (
        "x86emu 1\nshow\nram 0 1000",
        "refused line 3 reason 12 late ram\n",
    ),
    (
        "x86emu 1\nrun 1000000\nrun 1",
        "refused line 3 reason 13 too many\n",
    ),
    (
        "x86emu 1\ndev port r 60 no",
        "refused line 2 reason 7 unknown name\n",
    ),
    ("x86emu 1\nbatch 3", "ok\n"),
];

#[test]
fn checks_texts(rt: HostRuntime) -> Result<(), Fail> {
    for (text, wanted) in CHECKS {
        let bytes = checked(rt.alloc(), text)?;
        assert_eq!(rt; bytes.as_slice(), wanted.as_bytes());
    }
    Ok(())
}

/// Every rule of a valid state that a draft may break, and what is said of each.
const BAD_DRAFTS: &str =
    "x86emu 1\nreg rflags 0\nrun 1\nreg cr0 0\nrun 1\nreg cr4 1\nshow\nreg efer 2\nshow\nreg cr8 10\nshow\nseg es 0 100000000 0 93\nshow\nreg cpl 1\nshow\nreg cr4 20\nreg efer 500\nreg cr0 80000011\nseg cs 0 0 ffff 69b\nshow\nreg rip 100000000\nshow\nreg cr0 11\nrun 1\n";

const BAD_DRAFTS_TRACE: &[u8] =
    b"badstate 1\nbadstate 2\nbadstate 3\nbadstate 4\nbadstate 5\nbadstate 6\nbadstate 7\nbadstate 8\nbadstate 9\nhandoff - fetch 0\n";

#[test]
fn refuses_drafts(rt: HostRuntime) -> Result<(), Fail> {
    let (status, bytes, _) = ran(rt.alloc(), "run", BAD_DRAFTS, &[], &[])?;
    assert_eq!(rt; status, Status::Ok);
    assert_eq!(rt; bytes.as_slice(), BAD_DRAFTS_TRACE);
    Ok(())
}

#[test]
fn shows_memory_and_what_is_not_ram(rt: HostRuntime) -> Result<(), Fail> {
    let text =
        "x86emu 1\nram 0 10000\nreg cr0 0\nrun 1\ndump fff0 20\npoke fffe aabbcc\npoke fffe aabb\ndump ffef 11\n";
    let (status, bytes, _) = ran(rt.alloc(), "run", text, &[], &[])?;
    assert_eq!(rt; status, Status::Ok);
    assert_eq!(rt;
        bytes.as_slice(),
        b"badstate 2\nnotram 10000\nnotram 10000\nmem ffef 000000000000000000000000000000aa\nmem ffff bb\n".as_slice()
    );
    Ok(())
}

#[test]
fn reads_nothing_for_other_words(rt: HostRuntime) -> Result<(), Fail> {
    for asked in ["run x", "gen 01 1", "check run", ""] {
        let (status, bytes, reads) = ran(rt.alloc(), asked, PORT_READ, &[], &[])?;
        assert_eq!(rt; status, Status::Usage);
        assert_eq!(rt;
            bytes.as_slice(),
            b"usage: x86emu run | check | gen SEED COUNT\n".as_slice()
        );
        assert_eq!(rt; reads, 0);
    }
    Ok(())
}

#[test]
fn tells_a_failed_read(rt: HostRuntime) -> Result<(), Fail> {
    for call in [0, 1] {
        let (status, bytes, _) = ran(rt.alloc(), "run", PORT_READ, &[call], &[])?;
        assert_eq!(rt; status, Status::ReadFault);
        assert!(rt; bytes.is_empty());
    }
    Ok(())
}

#[test]
fn tells_a_failed_write(rt: HostRuntime) -> Result<(), Fail> {
    let (status, bytes, _) = ran(rt.alloc(), "run", PORT_READ, &[], &[1])?;
    assert_eq!(rt; status, Status::WriteFault);
    assert_eq!(rt; bytes.as_slice(), FIRST_LINE);
    Ok(())
}

#[test]
fn runs_over_a_reader_and_a_writer(rt: HostRuntime) -> Result<(), Fail> {
    let alloc = rt.alloc();
    let mut src = ReaderSource::new(Cursor::new(PORT_READ.as_bytes()));
    let mut bytes = Vec::new(alloc);
    let mut out = WriterSink::new(&mut bytes);
    let status = run(alloc, &words(alloc, "run")?, &mut src, &mut out);
    assert_eq!(rt; status.number(), 0);
    assert_eq!(rt; bytes.as_slice(), TRACE);
    Ok(())
}
