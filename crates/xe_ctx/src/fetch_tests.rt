//! Worked fetches through page tables, and in 64-bit mode; and what is decoded.

use crate::{Bus, Ctx, Handoff, Machine, Record, Reply, Stop};
use std::alloc::Global;
use std::process::Abort;
use std::test::Fail;
use xe_base::{Access, Cpu, Fault};
use xe_icpt::NoHits;
use xe_mem::{GuestMem, Region};
use xe_opmap::{Decoded, Row};

/// No device answers.
#[derive(Drop)]
struct Silent {
    asked: u64,
}

impl Bus for Silent {
    ghost use Rattle.std.specs.Prelude.{None};

    ghost sight = { λ b. record { tape = None; room = 0; spare = λ _. 0; unready = b.asked; faults = 0 } };

    fn access(&mut self, a: Access) -> Reply {
        let _ = a;
        self.asked = self.asked.saturating_add(1);
        Reply::NotYet
    }
}

/// A machine with 64 KiB at address 0, paging on and the top table at 1000h.
fn paged(alloc: Global, cr4: u64, efer: u64, attr: u16) -> Option<Machine> {
    let region = Region {
        start: 0,
        len: 1 << 16,
    };
    let mem = GuestMem::create(alloc, &[region]).ok()?;
    let mut cpu = Cpu::reset();
    cpu.cr0 = 0x8000_0011;
    cpu.cr3 = 0x1000;
    cpu.cr4 = cr4;
    cpu.efer = efer;
    cpu.cs.attr = attr;
    Machine::new(mem, cpu).ok()
}

/// The byte there.
fn byte(m: &Machine, pa: u64) -> u8 {
    let mut out = [0; 1];
    let _ = m.peek(pa, &mut out);
    out[0]
}

/// The first `len` bytes at this RIP are the instruction of a step, which changes no register.
fn step(m: &mut Machine, len: u8) -> Option<Stop> {
    let mut bus = Silent { asked: 0 };
    let mut record = Record::new();
    let mut ctx = Ctx::begin(m, &NoHits, &mut bus, &mut record);
    if len == 0 || len > 15 {
        return None;
    }
    if let Err(stop) = ctx.fetch(len - 1) {
        return Some(stop);
    }
    ctx.accept(len);
    let cpu = *ctx.cpu();
    if ctx.unused().is_none() {
        ctx.commit(cpu);
    }
    None
}

#[test]
fn fetches_over_a_page_end(rt: HostRuntime) {
    let mut m = paged(rt.alloc(), 0, 0, 0x9B).expect(&rt, "memory");
    let mut cpu = *m.cpu();
    cpu.rip = 0x3FFE;
    assert!(rt; m.set_cpu(cpu).is_ok());
    // Linear page 3 is physical page 5; page 4 is absent.
    assert!(rt; m.poke(0x1000, &[7, 0x20, 0, 0]).is_ok());
    assert!(rt; m.poke(0x200C, &[7, 0x50, 0, 0]).is_ok());
    let absent = Fault {
        vector: 14,
        code: Some(0),
        cr2: Some(0x4000),
    };
    assert!(rt; step(&mut m, 3) == Some(Stop::Fault(absent)));
    assert!(rt; byte(&m, 0x200C) == 7);
    // An instruction that ends before it doesn't care.
    assert!(rt; step(&mut m, 2).is_none());
    assert!(rt; byte(&m, 0x1000) == 0x27);
    assert!(rt; byte(&m, 0x200C) == 0x27);
    // Page 4 is physical page 7: only an instruction that reaches it marks it.
    assert!(rt; m.poke(0x2010, &[7, 0x70, 0, 0]).is_ok());
    assert!(rt; step(&mut m, 2).is_none());
    assert!(rt; byte(&m, 0x2010) == 7);
    assert!(rt; step(&mut m, 3).is_none());
    assert!(rt; byte(&m, 0x2010) == 0x27);
}

#[test]
fn fetches_in_64_bit_mode(rt: HostRuntime) {
    // One page of 1 GiB, at itself. The limit of CS isn't looked at.
    let mut m = paged(rt.alloc(), 0x20, 0x500, 0x29B).expect(&rt, "memory");
    assert!(rt; m.poke(0x1000, &[3, 0x20]).is_ok());
    assert!(rt; m.poke(0x2000, &[0x83]).is_ok());
    let mut cpu = *m.cpu();
    cpu.cs.limit = 0;
    cpu.rip = 0xFFFE;
    assert!(rt; m.set_cpu(cpu).is_ok());
    assert!(rt; step(&mut m, 2).is_none());
    assert!(rt; byte(&m, 0x2000) == 0xA3);
    assert!(rt; step(&mut m, 3) == Some(Stop::Handoff(Handoff::Fetch(0x1_0000))));
    cpu.rip = 1 << 47;
    assert!(rt; m.set_cpu(cpu).is_ok());
    let refused = Fault {
        vector: 13,
        code: Some(0),
        cr2: None,
    };
    assert!(rt; step(&mut m, 1) == Some(Stop::Fault(refused)));
}

/// Whether a step decodes this row at CS:RIP, in one byte.
fn decodes(m: &mut Machine, row: Row) -> bool {
    let mut bus = Silent { asked: 0 };
    let mut record = Record::new();
    let mut ctx = Ctx::begin(m, &NoHits, &mut bus, &mut record);
    match ctx.decode() {
        Decoded::Insn(insn) => insn.row == row && insn.len == 1 && ctx.code().len() == 15,
        Decoded::Invalid(_) | Decoded::Outside | Decoded::More => false,
    }
}

#[test]
fn decodes_the_bytes_that_stand_there(rt: HostRuntime) {
    let region = Region {
        start: 0,
        len: 1 << 16,
    };
    let mem = GuestMem::create(rt.alloc(), &[region]).expect(&rt, "memory");
    let mut cpu = Cpu::reset();
    cpu.cs.limit = 0xF_FFFF;
    let mut m = Machine::new(mem, cpu).ok().expect(&rt, "valid");
    // The same NOP twice, and then HLT in its place.
    assert!(rt; m.poke(0, &[0x90]).is_ok());
    assert!(rt; decodes(&mut m, Row::Nop));
    assert!(rt; decodes(&mut m, Row::Nop));
    assert!(rt; m.poke(0, &[0xF4]).is_ok());
    assert!(rt; decodes(&mut m, Row::Hlt));
    // The last byte of RAM begins a jump, whose second byte isn't there.
    assert!(rt; m.poke(0xFFFF, &[0xE9]).is_ok());
    cpu.rip = 0xFFFF;
    assert!(rt; m.set_cpu(cpu).is_ok());
    let mut bus = Silent { asked: 0 };
    let mut record = Record::new();
    let mut ctx = Ctx::begin(&mut m, &NoHits, &mut bus, &mut record);
    assert!(rt; ctx.decode() == Decoded::More);
    assert!(rt; ctx.missing() == Stop::Handoff(Handoff::Fetch(0x1_0000)));
}
