//! A few steps of a machine, through the public call.

use crate::{emulate, emulate_into};
use std::alloc::Global;
use std::process::Abort;
use std::test::Fail;
use xe_base::{Access, Cpu, Fault, Space};
use xe_ctx::{Machine, Outcome, Record, Report};
use xe_icpt::NoHits;
use xe_opmap::Row;
use xe_testing::Quiet;

/// A machine with 64 KiB at address 0, and the registers of a reset.
fn machine(alloc: Global) -> Option<Machine> {
    xe_testing::machine(alloc, Cpu::reset())
}

#[test]
fn steps_end_as_their_instructions_say(rt: HostRuntime) {
    let mut m = machine(rt.alloc()).expect(&rt, "memory");
    // IN AL, 60h; HLT; LOCK NOP, which is invalid.
    assert!(rt; m.poke(0x100, &[0xE4, 0x60, 0xF4]).is_ok());
    assert!(rt; m.poke(0x200, &[0xF0, 0x90]).is_ok());
    let mut cpu = Cpu::reset();
    cpu.rip = 0x100;
    assert!(rt; m.set_cpu(cpu).is_ok());
    let mut rec = Record::new();
    // An instruction that leaves nothing to be done is one step, whatever the batch.
    let report = emulate(&mut m, &NoHits, &mut Quiet, &mut rec, 3);
    assert!(rt; report.row == Some(Row::In));
    assert!(rt; report.finished == Some(Row::In));
    assert!(rt; report.elements == 1);
    assert!(rt; report.accesses.len() == 1);
    assert!(rt; m.cpu().rip == 0x102);
    let halted = Outcome::Done {
        more: false,
        retire: 4,
    };
    assert!(rt; emulate(&mut m, &NoHits, &mut Quiet, &mut rec, 1).outcome == halted);
    cpu.rip = 0x200;
    assert!(rt; m.set_cpu(cpu).is_ok());
    let undefined = Outcome::Fault(Fault {
        vector: 6,
        code: None,
        cr2: None,
    });
    assert!(rt; emulate(&mut m, &NoHits, &mut Quiet, &mut rec, 1).outcome == undefined);
    assert!(rt; m.cpu().rip == 0x200);
}

#[test]
fn a_kept_answer_takes_the_place_of_the_device(rt: HostRuntime) {
    let mut m = machine(rt.alloc()).expect(&rt, "memory");
    // IN AL, 60h; HLT.
    assert!(rt; m.poke(0x100, &[0xE4, 0x60, 0xF4]).is_ok());
    let mut cpu = Cpu::reset();
    cpu.rip = 0x100;
    assert!(rt; m.set_cpu(cpu).is_ok());
    let read = Access {
        space: Space::Port,
        write: false,
        address: 0x60,
        size: 1,
        value: 0,
    };
    // A step that was asked for the port, and one that comes after it: nothing changes, the record neither.
    let mut rec = Record::of(&[], read);
    cpu.rip = 0x102;
    assert!(rt; m.set_cpu(cpu).is_ok());
    let mut report = Report::new();
    emulate_into(&mut m, &NoHits, &mut Quiet, &mut rec, 1, &mut report);
    let diverged = Outcome::Diverged {
        at: 0,
        kept: read,
        wanted: None,
    };
    assert!(rt; report.outcome == diverged);
    assert!(rt; report.accesses.is_empty());
    assert!(rt; m.cpu().rip == 0x102);
    assert!(rt; rec.asked() == Some(read));
    // The step that it belongs to goes on, and the device is asked.
    cpu.rip = 0x100;
    assert!(rt; m.set_cpu(cpu).is_ok());
    emulate_into(&mut m, &NoHits, &mut Quiet, &mut rec, 1, &mut report);
    assert!(rt; report.row == Some(Row::In));
    assert!(rt; report.accesses.len() == 1);
    assert!(rt; rec.asked().is_none());
    assert!(rt; rec.answers().is_empty());
    rec.abandon();
}
