//! Worked examples: a few instructions from their bytes.

ghost use Rattle.std.specs.Prelude.{◌≤◌, length};

use crate::{
    descriptors_take_little, exec, is_row, queries_change_states_calmly,
    rows_change_segments_at_most, rows_keep_states_valid, rows_take_little,
};
use std::alloc::Global;
use std::process::Abort;
use std::test::Fail;
use xe_base::{Cpu, Fault, Seg};
use xe_ctx::{Ctx, Flow, Machine, Record, Stop};
use xe_icpt::NoHits;
use xe_opmap::{Decoded, decode};
use xe_testing::Quiet;

/// A GDT of four descriptors: none; writable data at A0000h that wasn't accessed; an available TSS of 32 bits
/// with 68h bytes; and readable code of 4 GiB at level 0.
const GDT: [u8; 32] = [
    0, 0, 0, 0, 0, 0, 0, 0, 0xFF, 0xFF, 0, 0, 0x0A, 0x92, 0, 0, 0x67, 0, 0, 0x20, 0, 0x89, 0, 0,
    0xFF, 0xFF, 0, 0, 0, 0x9B, 0xCF, 0,
];

/// A machine with 64 KiB at address 0, which holds this table at 1000h, and these registers.
fn machine(alloc: Global, cpu: Cpu) -> Option<Machine> {
    let mut m = xe_testing::machine(alloc, cpu)?;
    m.poke(0x1000, &GDT).ok()?;
    Some(m)
}

/// What an instruction of this crate's rows comes to.
fn run(alloc: Global, cpu: Cpu, bytes: &[u8]) -> Option<Flow>
    requires { length bytes.now ≤ 15 }
{
    let mut m = machine(alloc, cpu)?;
    let Decoded::Insn(insn) = decode(m.cpu().code_size(), bytes) else {
        return None;
    };
    if !is_row(insn.row) {
        return None;
    }
    let mut bus = Quiet;
    let mut record = Record::new();
    let mut ctx = Ctx::begin(&mut m, &NoHits, &mut bus, &mut record);
    Some(exec(&insn, &mut ctx))
}

/// The registers after an instruction that finishes, and what its retirement brings with it.
fn after(alloc: Global, cpu: Cpu, bytes: &[u8]) -> Option<(Cpu, u8)>
    requires { length bytes.now ≤ 15 }
{
    match run(alloc, cpu, bytes)? {
        Flow::Finish { cpu, retire, .. } => Some((cpu, retire)),
        Flow::Stopped(_) => None,
    }
}

/// The exception that an instruction raises.
fn fault(alloc: Global, cpu: Cpu, bytes: &[u8]) -> Option<Fault>
    requires { length bytes.now ≤ 15 }
{
    match run(alloc, cpu, bytes)? {
        Flow::Stopped(Stop::Fault(fault)) => Some(fault),
        Flow::Stopped(_) | Flow::Finish { .. } => None,
    }
}

#[test]
fn runs_instructions(rt: HostRuntime) {
    descriptors_take_little();
    queries_change_states_calmly();
    rows_change_segments_at_most();
    rows_keep_states_valid();
    rows_take_little();
    let mut cpu = Cpu::reset();
    cpu.gdtr.base = 0x1000;
    cpu.gdtr.limit = 0x1F;
    cpu.gpr[0] = 8;
    // MOV SS, AX in real mode: no descriptor is read.
    let (real, retire) = after(rt.alloc(), cpu, &[0x8E, 0xD0]).expect(&rt, "real");
    assert!(rt;
        real.ss
            == Seg {
                sel: 8,
                base: 0x80,
                ..cpu.ss
            }
    );
    assert!(rt; retire == 2);
    // SLDT is undefined there.
    let undefined = fault(rt.alloc(), cpu, &[0x0F, 0x00, 0xC0]).expect(&rt, "SLDT");
    assert!(rt; undefined.vector == 6 && undefined.code.is_none());
    cpu.cr0 = 0x11;
    // MOV DS, AX: the loaded attributes have the accessed bit.
    let (loaded, retire) = after(rt.alloc(), cpu, &[0x8E, 0xD8]).expect(&rt, "MOV");
    assert!(rt;
        loaded.ds
            == Seg {
                sel: 8,
                base: 0xA_0000,
                limit: 0xFFFF,
                attr: 0x93
            }
    );
    assert!(rt; retire == 0);
    // A null selector, and one past the table.
    cpu.gpr[0] = 0;
    let (null, _) = after(rt.alloc(), cpu, &[0x8E, 0xD8]).expect(&rt, "null");
    assert!(rt;
        null.ds
            == Seg {
                sel: 0,
                base: 0,
                limit: 0,
                attr: 0
            }
    );
    cpu.gpr[0] = 0x23;
    let past = fault(rt.alloc(), cpu, &[0x8E, 0xD8]).expect(&rt, "past");
    assert!(rt; past.vector == 13 && past.code == Some(0x20));
    // LTR AX: the TSS becomes busy.
    cpu.gpr[0] = 0x10;
    let (task, _) = after(rt.alloc(), cpu, &[0x0F, 0x00, 0xD8]).expect(&rt, "LTR");
    assert!(rt;
        task.tr
            == Seg {
                sel: 0x10,
                base: 0x2000,
                limit: 0x67,
                attr: 0x8B
            }
    );
    // LSL EBX, EAX: the limit in bytes. LAR EBX, EAX. VERW AX: code can't be written.
    cpu.gpr[0] = 0x18;
    let (limit, _) = after(rt.alloc(), cpu, &[0x66, 0x0F, 0x03, 0xD8]).expect(&rt, "LSL");
    assert!(rt; limit.gpr[3] == 0xFFFF_FFFF && limit.rflags == 0x42);
    let (rights, _) = after(rt.alloc(), cpu, &[0x66, 0x0F, 0x02, 0xD8]).expect(&rt, "LAR");
    assert!(rt; rights.gpr[3] == 0xC0_9B00 && rights.rflags == 0x42);
    let (verified, _) = after(rt.alloc(), cpu, &[0x0F, 0x00, 0xE8]).expect(&rt, "VERW");
    assert!(rt; verified.rflags == 2);
    // ARPL AX, CX.
    cpu.gpr[1] = 3;
    let (raised, _) = after(rt.alloc(), cpu, &[0x63, 0xC8]).expect(&rt, "ARPL");
    assert!(rt; raised.gpr[0] == 0x1B && raised.rflags == 0x42);
}
