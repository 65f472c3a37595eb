//! Worked examples: a few far transfers from their bytes.

ghost use Rattle.std.specs.Prelude.{◌≤◌, length};

use crate::{exec, is_row, rows_keep_states_valid, rows_never_gain_privilege, rows_take_little};
use std::alloc::Global;
use std::process::Abort;
use std::test::Fail;
use xe_base::{Cpu, Fault, Seg, Table};
use xe_ctx::{Ctx, Flow, Handoff, Machine, Record, Stop};
use xe_icpt::NoHits;
use xe_opmap::{Decoded, decode};
use xe_testing::Quiet;

/// Descriptors of code and data at level 0, of code and data at level 3, of code that isn't present, and a
/// call gate: from selector 8 on.
const DESCRIPTORS: [u8; 48] = [
    0xFF, 0xFF, 0, 0, 0, 0x9A, 0, 0, 0xFF, 0xFF, 0, 0, 0, 0x92, 0, 0, 0xFF, 0xFF, 0, 0, 0, 0xFA, 0,
    0, 0xFF, 0xFF, 0, 0, 0, 0xF2, 0, 0, 0xFF, 0xFF, 0, 0, 0, 0x1A, 0, 0, 0, 0, 8, 0, 0, 0x8C, 0, 0,
];

/// A machine with 64 KiB at address 0, these registers, the descriptors at 1008h and a stack at 200h.
fn machine(alloc: Global, cpu: Cpu, stack: &[u8]) -> Option<Machine> {
    let mut m = xe_testing::machine(alloc, cpu)?;
    m.poke(0x1008, &DESCRIPTORS).ok()?;
    m.poke(0x200, stack).ok()?;
    Some(m)
}

/// How an instruction of this crate's rows ends.
fn end_of(alloc: Global, cpu: Cpu, stack: &[u8], bytes: &[u8]) -> Option<Flow>
    requires { length bytes.now ≤ 15 }
{
    let mut m = machine(alloc, cpu, stack)?;
    let Decoded::Insn(insn) = decode(m.cpu().code_size(), bytes) else {
        return None;
    };
    if !is_row(insn.row) {
        return None;
    }
    let mut bus = Quiet;
    let mut record = Record::new();
    let mut ctx = Ctx::begin(&mut m, &NoHits, &mut bus, &mut record);
    Some(exec(&insn, &mut ctx))
}

/// The registers after an instruction that finishes.
fn after(end: Option<Flow>) -> Option<Cpu> {
    match end? {
        Flow::Finish { cpu, .. } => Some(cpu),
        Flow::Stopped(_) => None,
    }
}

/// Whether it ends by an exception with this vector and code.
fn raises(end: Option<Flow>, vector: u8, code: u32) -> bool {
    match end {
        Some(Flow::Stopped(Stop::Fault(fault))) => {
            fault
                == Fault {
                    vector,
                    code: Some(code),
                    cr2: None,
                }
        }
        _ => false,
    }
}

/// Protected mode at level 0, with SP at 200h.
fn protected() -> Cpu {
    let mut cpu = Cpu::reset();
    cpu.cr0 = 0x11;
    cpu.gdtr = Table {
        base: 0x1000,
        limit: 0x37,
    };
    cpu.cs.sel = 8;
    cpu.gpr[4] = 0x200;
    cpu
}

#[test]
fn jumps_by_the_descriptor(rt: HostRuntime) {
    rows_never_gain_privilege();
    rows_keep_states_valid();
    rows_take_little();
    let cpu = protected();
    // A null selector, one past the table, one of code that isn't present, a call gate, and code.
    assert!(rt; raises(end_of(rt.alloc(), cpu, &[], &[0xEA, 0, 0, 0, 0]), 13, 0));
    assert!(rt;
        raises(
            end_of(rt.alloc(), cpu, &[], &[0xEA, 0, 0, 0x38, 0]),
            13,
            0x38
        )
    );
    assert!(rt;
        raises(
            end_of(rt.alloc(), cpu, &[], &[0xEA, 0, 0, 0x28, 0]),
            11,
            0x28
        )
    );
    let gate = Flow::Stopped(Stop::Handoff(Handoff::CallGate(0x33)));
    assert!(rt; end_of(rt.alloc(), cpu, &[], &[0xEA, 0, 0, 0x33, 0]) == Some(gate));
    let jumped = after(end_of(rt.alloc(), cpu, &[], &[0xEA, 0x34, 0x12, 8, 0])).expect(&rt, "JMP");
    assert!(rt; jumped.cs.sel == 8 && jumped.cs.attr == 0x9B && jumped.rip == 0x1234);
}

#[test]
fn calls_in_real_mode(rt: HostRuntime) {
    let mut cpu = Cpu::reset();
    cpu.gpr[4] = 0x200;
    let called = after(end_of(rt.alloc(), cpu, &[], &[0x9A, 0x34, 0x12, 0x78, 0x56])).expect(
        &rt, "CALL",
    );
    assert!(rt; called.cs.sel == 0x5678 && called.cs.base == 0x56780 && called.rip == 0x1234);
    assert!(rt; called.gpr[4] == 0x1FC);
}

#[test]
fn returns_to_less_privilege(rt: HostRuntime) {
    let mut cpu = protected();
    cpu.es.attr = 0xF3;
    // RET 2: IP 3000, CS 1B, two bytes, SP 4000, SS 23.
    let stack = [0, 0x30, 0x1B, 0, 0xEE, 0xEE, 0, 0x40, 0x23, 0];
    let outer = after(end_of(rt.alloc(), cpu, &stack, &[0xCA, 2, 0])).expect(&rt, "RET");
    assert!(rt; outer.cpl == 3 && outer.cs.sel == 0x1B && outer.rip == 0x3000);
    assert!(rt; outer.ss.sel == 0x23 && outer.gpr[4] == 0x4002);
    // DS of level 0 is taken away, ES of level 3 stays.
    assert!(rt; outer.ds == Seg::default() && outer.es == cpu.es);
    // IRET at the same level: IP 3000, CS 8, the flags.
    let flags = [0, 0x30, 8, 0, 0xFF, 0xFF];
    let inner = after(end_of(rt.alloc(), cpu, &flags, &[0xCF])).expect(&rt, "IRET");
    assert!(rt; inner.cpl == 0 && inner.gpr[4] == 0x206 && inner.rflags == 0x7FD7);
    // With NT set the return is one to another task.
    cpu.rflags = 0x4002;
    let task = Flow::Stopped(Stop::Handoff(Handoff::TaskReturn));
    assert!(rt; end_of(rt.alloc(), cpu, &flags, &[0xCF]) == Some(task));
}
