//! Worked examples: single elements from the bytes of their instruction.

ghost use Rattle.std.specs.Prelude.{◌≤◌, length};

use crate::{
    exec, is_row, rows_change_states_calmly, rows_count_down, rows_keep_states_valid,
    rows_take_little,
};
use std::alloc::Global;
use std::process::Abort;
use std::test::Fail;
use xe_base::Cpu;
use xe_ctx::{Ctx, Flow, Machine, Record};
use xe_icpt::NoHits;
use xe_opmap::{Decoded, decode};
use xe_testing::Quiet;

/// A machine with 64 KiB at address 0, where the byte at 200h is AAh and each other one 0, and these
/// registers.
fn machine(alloc: Global, cpu: Cpu) -> Option<Machine> {
    let mut m = xe_testing::machine(alloc, cpu)?;
    m.poke(0x200, &[0xAA]).ok()?;
    Some(m)
}

/// The registers after one element of an instruction of this crate's rows that finishes it, and whether
/// the instruction goes on.
fn after(alloc: Global, cpu: Cpu, bytes: &[u8]) -> Option<(Cpu, bool)>
    requires { length bytes.now ≤ 15 }
{
    let mut m = machine(alloc, cpu)?;
    let Decoded::Insn(insn) = decode(m.cpu().code_size(), bytes) else {
        return None;
    };
    if !is_row(insn.row) {
        return None;
    }
    let mut bus = Quiet;
    let mut record = Record::new();
    let mut ctx = Ctx::begin(&mut m, &NoHits, &mut bus, &mut record);
    match exec(&insn, &mut ctx) {
        Flow::Finish { cpu, more, .. } => Some((cpu, more)),
        Flow::Stopped(_) => None,
    }
}

/// RAX AAh, RCX 3, RSI 200h, RDI 200h, and these flags.
fn registers(flags: u64) -> Cpu {
    let mut cpu = Cpu::reset();
    cpu.gpr[0] = 0xAA;
    cpu.gpr[1] = 3;
    cpu.gpr[6] = 0x200;
    cpu.gpr[7] = 0x200;
    cpu.rflags = flags;
    cpu
}

#[test]
fn does_elements(rt: HostRuntime) {
    rows_change_states_calmly();
    rows_keep_states_valid();
    rows_count_down();
    rows_take_little();
    let cpu = registers(2);
    // REP MOVSB: two elements are left.
    let (moved, more) = after(rt.alloc(), cpu, &[0xF3, 0xA4]).expect(&rt, "MOVS");
    assert!(rt; more && moved.rip == 0 && moved.gpr[1] == 2);
    assert!(rt; moved.gpr[6] == 0x201 && moved.gpr[7] == 0x201);
    // REPNE SCASB finds the byte.
    let (found, more) = after(rt.alloc(), cpu, &[0xF2, 0xAE]).expect(&rt, "SCAS");
    assert!(rt; !more && found.rip == 2 && found.gpr[1] == 2);
    assert!(rt; found.rflags == 0x46);
    // STOSD, downwards.
    let (stored, more) = after(rt.alloc(), registers(0x402), &[0x66, 0xAB]).expect(&rt, "STOS");
    assert!(rt; !more && stored.rip == 2 && stored.gpr[7] == 0x1FC);
    // REP INSB with a count of 0.
    let mut none = cpu;
    none.gpr[1] = 0;
    let (ended, more) = after(rt.alloc(), none, &[0xF3, 0x6C]).expect(&rt, "INS");
    assert!(rt; !more && ended.rip == 2 && ended.gpr[7] == 0x200);
}
