//! Worked examples: refusals of a machine, an access over the end of RAM, a step that is given up,
//! and one that is suspended and resumed.

ghost use Rattle.std.specs.Prelude.{None, IsTrue};
ghost use Rattle.xe_base.specs.Access.{is_well_formed};

use crate::{Bus, Ctx, Diverged, Handoff, Machine, NotRam, Record, Reply, Stop};
use std::alloc::Global;
use std::process::Abort;
use std::test::Fail;
use xe_base::{Access, Answer, BadState, Cpu, Fault, SegName, Space};
use xe_icpt::{NoHits, Point};
use xe_mem::{GuestMem, Region};

/// Devices that answer with the low bytes of the address, so many times, and then aren't ready.
#[derive(Drop)]
struct Echo {
    ready: u64,
    waits: u64,
}

impl Bus for Echo {
    ghost use Rattle.std.specs.Prelude.{None};

    ghost sight = { λ b. record { tape = None; room = 0; spare = λ _. 0; unready = b.waits; faults = 0 } };

    fn access(&mut self, a: Access) -> Reply {
        if self.ready == 0 {
            self.waits = self.waits.saturating_add(1);
            return Reply::NotYet;
        }
        self.ready -= 1;
        if a.write {
            return Reply::Ready(Answer::Val(0));
        }
        match a.size {
            1 => Reply::Ready(Answer::Val(a.address % (1 << 8))),
            2 => Reply::Ready(Answer::Val(a.address % (1 << 16))),
            4 => Reply::Ready(Answer::Val(a.address % (1 << 32))),
            _ => Reply::Ready(Answer::Val(a.address)),
        }
    }
}

/// Devices that are always ready.
fn always_ready() -> Echo {
    Echo {
        ready: u64::MAX,
        waits: 0,
    }
}

/// A read of one byte of a port.
fn port(number: u16) -> Access
    ensures { IsTrue (is_well_formed result) }
{
    Access {
        space: Space::Port,
        write: false,
        address: number as u64,
        size: 1,
        value: 0,
    }
}

/// A machine with 64 KiB at address 0.
fn machine(alloc: Global) -> Option<Machine> {
    let region = Region {
        start: 0,
        len: 1 << 16,
    };
    let mem = GuestMem::create(alloc, &[region]).ok()?;
    Machine::new(mem, Cpu::reset()).ok()
}

#[test]
fn refuses_registers_and_addresses(rt: HostRuntime) {
    let mut m = machine(rt.alloc()).expect(&rt, "memory");
    let bad = Cpu {
        cr0: 0,
        ..Cpu::reset()
    };
    assert!(rt; m.set_cpu(bad) == Err(BadState { rule: 2 }));
    assert!(rt; *m.cpu() == Cpu::reset());
    assert!(rt; m.regions().len() == 1);
    assert!(rt; m.poke(0xFFFF, &[1, 2]) == Err(NotRam { pa: 0x1_0000 }));
    assert!(rt; m.poke(0xFFFE, &[1, 2]).is_ok());
    let mut out = [0; 2];
    assert!(rt; m.peek(0xFFFE, &mut out).is_ok());
    assert!(rt; out == [1, 2]);
}

#[test]
fn reads_over_the_end_of_ram(rt: HostRuntime) {
    let mut m = machine(rt.alloc()).expect(&rt, "memory");
    let mut cpu = Cpu::reset();
    cpu.ds.base = 0xF000;
    cpu.ds.limit = 0xF_FFFF;
    assert!(rt; m.set_cpu(cpu).is_ok());
    assert!(rt; m.poke(0xFFFF, &[0x11]).is_ok());
    let mut bus = always_ready();
    let mut record = Record::new();
    let mut ctx = Ctx::begin(&mut m, &NoHits, &mut bus, &mut record);
    // One byte of RAM at FFFF, then two bytes and one of the device behind it.
    assert!(rt; ctx.load(SegName::Ds, 0xFFF, 4) == Ok(0x0200_0011));
    assert!(rt; ctx.made().len() == 2);
    assert!(rt; ctx.made()[0].access.address == 0x1_0000);
    assert!(rt; ctx.made()[0].access.size == 2);
    assert!(rt; ctx.made()[1].access.address == 0x1_0002);
    assert!(rt; ctx.made()[1].access.size == 1);
    // The last offset is at the limit; one more is past it.
    let past = ctx.load(SegName::Ds, 0xF_FFFF, 2);
    assert!(rt;
        past == Err(Stop::Fault(Fault {
            vector: 13,
            code: None,
            cr2: None
        }))
    );
}

#[test]
fn stores_take_effect_with_the_commit(rt: HostRuntime) {
    let mut m = machine(rt.alloc()).expect(&rt, "memory");
    assert!(rt; m.poke(0, &[0xF4]).is_ok());
    let mut bus = always_ready();
    let mut record = Record::new();
    let mut ctx = Ctx::begin(&mut m, &NoHits, &mut bus, &mut record);
    assert!(rt; ctx.store(SegName::Es, 0x100, 2, 0x2211).is_ok());
    ctx.end(&Stop::Handoff(Handoff::TaskReturn));
    let mut out = [0; 2];
    assert!(rt; m.peek(0x100, &mut out).is_ok());
    assert!(rt; out == [0, 0]);

    let mut ctx = Ctx::begin(&mut m, &NoHits, &mut bus, &mut record);
    assert!(rt; ctx.fetch(0) == Ok(0xF4));
    ctx.accept(1);
    assert!(rt; ctx.point(&Point::Hlt).is_ok());
    assert!(rt; ctx.probe(SegName::Es, 0x100, 2).is_ok());
    assert!(rt; ctx.load_for_write(SegName::Es, 0x100, 2) == Ok(0));
    assert!(rt; ctx.store(SegName::Es, 0x100, 2, 0x2211).is_ok());
    // The step sees what it has stored.
    assert!(rt; ctx.load(SegName::Ds, 0x101, 1) == Ok(0x22));
    assert!(rt; ctx.device(port(0x60)) == Ok(Answer::Val(0x60)));
    let cpu = *ctx.cpu();
    assert!(rt; ctx.unused().is_none());
    if ctx.unused().is_none() {
        ctx.commit(cpu);
    }
    assert!(rt; m.peek(0x100, &mut out).is_ok());
    assert!(rt; out == [0x11, 0x22]);
}

/// 32-bit paging with the directory at 1000 and one table at 2000. Page 3 is mapped, at 4000, page 5 is
/// the table itself, page 4 is absent; the second table is outside RAM.
fn paged_machine(alloc: Global) -> Option<Machine> {
    let mut m = machine(alloc)?;
    m.poke(0x1000, &[7, 0x20, 0, 0, 7, 0, 0x10, 0]).ok()?;
    m.poke(0x200C, &[7, 0x40, 0, 0]).ok()?;
    m.poke(0x2014, &[7, 0x20, 0, 0]).ok()?;
    let mut cpu = Cpu::reset();
    cpu.cr0 = 0x8000_0011;
    cpu.cr3 = 0x1000;
    cpu.ds.limit = 0xFFFF_FFFF;
    m.set_cpu(cpu).ok()?;
    Some(m)
}

/// The lowest bytes of the directory's first entry and of the table's entry for page 3.
fn marks(m: &Machine) -> (u8, u8) {
    let mut top = [0; 1];
    let mut last = [0; 1];
    let _ = m.peek(0x1000, &mut top);
    let _ = m.peek(0x200C, &mut last);
    (top[0], last[0])
}

#[test]
fn marks_entries_with_the_commit(rt: HostRuntime) {
    let mut m = paged_machine(rt.alloc()).expect(&rt, "memory");
    let mut bus = always_ready();
    let mut record = Record::new();
    let mut ctx = Ctx::begin(&mut m, &NoHits, &mut bus, &mut record);
    assert!(rt; ctx.load(SegName::Ds, 0x3000, 2) == Ok(0));
    let cpu = *ctx.cpu();
    if ctx.unused().is_none() {
        ctx.commit(cpu);
    }
    assert!(rt; marks(&m) == (0x27, 0x27));

    // The table maps itself: page 4 is there as soon as the step has written its entry.
    let mut ctx = Ctx::begin(&mut m, &NoHits, &mut bus, &mut record);
    assert!(rt; ctx.store(SegName::Ds, 0x5010, 4, 0x4007).is_ok());
    assert!(rt; ctx.store(SegName::Ds, 0x4001, 1, 0x11).is_ok());
    assert!(rt; ctx.load(SegName::Ds, 0x3000, 2) == Ok(0x1100));
    assert!(rt; ctx.load(SegName::Ds, 0x5010, 1) == Ok(0x67));
}

#[test]
fn changes_nothing_where_the_second_page_is_absent(rt: HostRuntime) {
    let mut m = paged_machine(rt.alloc()).expect(&rt, "memory");
    let mut bus = always_ready();
    let mut record = Record::new();
    let mut ctx = Ctx::begin(&mut m, &NoHits, &mut bus, &mut record);
    let absent = Stop::Fault(Fault {
        vector: 14,
        code: Some(2),
        cr2: Some(0x4000),
    });
    assert!(rt; ctx.store(SegName::Ds, 0x3FFE, 4, 0x4433_2211) == Err(absent));
    ctx.end(&absent);
    let mut out = [0; 2];
    assert!(rt; m.peek(0x4FFE, &mut out).is_ok());
    assert!(rt; out == [0, 0]);
    assert!(rt; marks(&m) == (7, 7));
    let mut ctx = Ctx::begin(&mut m, &NoHits, &mut bus, &mut record);
    let outside = Err(Stop::Handoff(Handoff::Entry(0x10_0000)));
    assert!(rt; ctx.load(SegName::Ds, 0x40_0000, 1) == outside);
}

#[test]
fn hands_off_a_fetch_outside_ram(rt: HostRuntime) {
    let mut m = machine(rt.alloc()).expect(&rt, "memory");
    let mut cpu = Cpu::reset();
    cpu.rip = 0x1_0000;
    cpu.cs.limit = 0xF_FFFF;
    assert!(rt; m.set_cpu(cpu).is_ok());
    let mut bus = always_ready();
    let mut record = Record::new();
    let mut ctx = Ctx::begin(&mut m, &NoHits, &mut bus, &mut record);
    assert!(rt; ctx.fetch(3) == Err(Stop::Handoff(Handoff::Fetch(0x1_0000))));
}

#[test]
fn resumes_where_a_device_was_not_ready(rt: HostRuntime) {
    let mut m = machine(rt.alloc()).expect(&rt, "memory");
    let mut bus = Echo { ready: 1, waits: 0 };
    let mut record = Record::new();
    let mut ctx = Ctx::begin(&mut m, &NoHits, &mut bus, &mut record);
    assert!(rt; ctx.device(port(0x60)) == Ok(Answer::Val(0x60)));
    assert!(rt; ctx.device(port(0x61)) == Err(Stop::Pending(port(0x61))));
    ctx.end(&Stop::Pending(port(0x61)));
    assert!(rt; record.answers().len() == 1);
    assert!(rt; record.asked() == Some(port(0x61)));

    // The device that has answered isn't asked again.
    bus.ready = 1;
    let mut ctx = Ctx::begin(&mut m, &NoHits, &mut bus, &mut record);
    assert!(rt; ctx.unused() == Some((0, port(0x60))));
    assert!(rt; ctx.device(port(0x60)) == Ok(Answer::Val(0x60)));
    assert!(rt; ctx.unused() == Some((1, port(0x61))));
    let other = ctx.device(port(0x62));
    assert!(rt;
        other
            == Err(Stop::Diverged(Diverged {
                at: 1,
                kept: port(0x61),
                wanted: Some(port(0x62))
            }))
    );
    assert!(rt; ctx.device(port(0x61)) == Ok(Answer::Val(0x61)));
    assert!(rt; ctx.unused().is_none());
    let cpu = *ctx.cpu();
    if ctx.unused().is_none() {
        ctx.commit(cpu);
    }
    assert!(rt; record.asked().is_none());
}
