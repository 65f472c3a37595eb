//! Worked examples: a few instructions from their bytes.

ghost use Rattle.std.specs.Prelude.{◌≤◌, length};

use crate::{exec, is_row, rows_change_states_calmly, rows_keep_states_valid, rows_take_little};
use std::alloc::Global;
use std::process::Abort;
use std::test::Fail;
use xe_base::Cpu;
use xe_ctx::{Ctx, Flow, Record};
use xe_icpt::NoHits;
use xe_opmap::{Decoded, decode};
use xe_testing::{Quiet, machine};

/// The registers after an instruction of this crate's rows that finishes.
fn after(alloc: Global, cpu: Cpu, bytes: &[u8]) -> Option<Cpu>
    requires { length bytes.now ≤ 15 }
{
    let mut m = machine(alloc, cpu)?;
    let Decoded::Insn(insn) = decode(m.cpu().code_size(), bytes) else {
        return None;
    };
    if !is_row(insn.row) {
        return None;
    }
    let mut bus = Quiet;
    let mut record = Record::new();
    let mut ctx = Ctx::begin(&mut m, &NoHits, &mut bus, &mut record);
    match exec(&insn, &mut ctx) {
        Flow::Finish { cpu, .. } => Some(cpu),
        Flow::Stopped(_) => None,
    }
}

#[test]
fn runs_instructions(rt: HostRuntime) {
    rows_change_states_calmly();
    rows_keep_states_valid();
    rows_take_little();
    let mut cpu = Cpu::reset();
    cpu.gpr[0] = 0x1234;
    cpu.gpr[3] = 0xFFFF_0001;
    // ADD AX, BX: a register of 16 bits is written, and the upper half stays.
    let sum = after(rt.alloc(), cpu, &[0x01, 0xD8]).expect(&rt, "ADD");
    assert!(rt; sum.gpr[0] == 0x1235);
    assert!(rt; sum.rip == 2);
    // NEG EBX.
    let negated = after(rt.alloc(), cpu, &[0x66, 0xF7, 0xDB]).expect(&rt, "NEG");
    assert!(rt; negated.gpr[3] == 0xFFFF);
    assert!(rt; negated.rflags == 0x17);
    // DIV BL, of AX by 1: the quotient has no byte.
    assert!(rt; after(rt.alloc(), cpu, &[0xF6, 0xF3]).is_none());
}
