//! Worked examples: a few instructions from their bytes.

ghost use Rattle.std.specs.Prelude.{◌≤◌, length};

use crate::{exec, is_row, rows_change_states_calmly, rows_keep_states_valid, rows_take_little};
use std::alloc::Global;
use std::process::Abort;
use std::test::Fail;
use xe_base::Cpu;
use xe_ctx::{Ctx, Event, EventKind, Flow, Machine, Record, Stop};
use xe_icpt::NoHits;
use xe_opmap::{Decoded, decode};
use xe_testing::Quiet;

/// A machine with 64 KiB at address 0, where each byte of RAM is 0, and these stack and frame pointers.
fn machine(alloc: Global, sp: u64, bp: u64) -> Option<Machine> {
    let mut cpu = Cpu::reset();
    cpu.gpr[4] = sp;
    cpu.gpr[5] = bp;
    xe_testing::machine(alloc, cpu)
}

/// How an instruction of this crate's rows ends on a machine, whose memory changes where it finishes.
fn run(m: &mut Machine, bytes: &[u8]) -> Option<Flow>
    requires { length bytes.now ≤ 15 }
{
    let Decoded::Insn(insn) = decode(m.cpu().code_size(), bytes) else {
        return None;
    };
    if !is_row(insn.row) {
        return None;
    }
    let mut bus = Quiet;
    let mut record = Record::new();
    let mut ctx = Ctx::begin(m, &NoHits, &mut bus, &mut record);
    match exec(&insn, &mut ctx) {
        Flow::Finish { cpu, more, retire } => {
            if let None = ctx.unused() {
                ctx.commit(cpu);
            }
            Some(Flow::Finish { cpu, more, retire })
        }
        Flow::Stopped(stop) => Some(Flow::Stopped(stop)),
    }
}

/// The registers after an instruction that finishes.
fn after(m: &mut Machine, bytes: &[u8]) -> Option<Cpu>
    requires { length bytes.now ≤ 15 }
{
    match run(m, bytes)? {
        Flow::Finish { cpu, .. } => Some(cpu),
        Flow::Stopped(_) => None,
    }
}

#[test]
fn moves_numbers_on_the_stack(rt: HostRuntime) {
    let mut word = [0; 2];
    let mut frame = [0; 6];
    // PUSH SP pushes what SP was.
    let mut m = machine(rt.alloc(), 0x1000, 0x2000).expect(&rt, "RAM");
    let pushed = after(&mut m, &[0x54]).expect(&rt, "PUSH");
    assert!(rt; pushed.gpr[4] == 0xFFE);
    m.peek(0xFFE, &mut word).expect(&rt, "RAM");
    assert!(rt; word == [0x00, 0x10]);
    // POP to memory at ESP: the address is taken from the stack pointer behind the number.
    let popped = after(&mut m, &[0x67, 0x8F, 0x04, 0x24]).expect(&rt, "POP");
    assert!(rt; popped.gpr[4] == 0x1000);
    m.peek(0x1000, &mut word).expect(&rt, "RAM");
    assert!(rt; word == [0x00, 0x10]);
    // ENTER 8, 2: the old frame pointer, the one that lies below its place, and the new one.
    m.poke(0x1FFE, &[0xEF, 0xBE]).expect(&rt, "RAM");
    let entered = after(&mut m, &[0xC8, 0x08, 0x00, 0x02]).expect(&rt, "ENTER");
    assert!(rt; entered.gpr[5] == 0xFFE);
    assert!(rt; entered.gpr[4] == 0xFF2);
    m.peek(0xFFA, &mut frame).expect(&rt, "RAM");
    assert!(rt; frame == [0xFE, 0x0F, 0xEF, 0xBE, 0x00, 0x20]);
    // LEAVE undoes it.
    let left = after(&mut m, &[0xC9]).expect(&rt, "LEAVE");
    assert!(rt; left.gpr[4] == 0x1000);
    assert!(rt; left.gpr[5] == 0x2000);
}

#[test]
fn goes_on_elsewhere(rt: HostRuntime) {
    rows_change_states_calmly();
    rows_keep_states_valid();
    rows_take_little();
    let mut m = machine(rt.alloc(), 0x1000, 0x2000).expect(&rt, "RAM");
    // CALL, 10h bytes further on, and RET 4 from there.
    let called = after(&mut m, &[0xE8, 0x10, 0x00]).expect(&rt, "CALL");
    assert!(rt; called.rip == 0x13);
    let returned = after(&mut m, &[0xC2, 0x04, 0x00]).expect(&rt, "RET");
    assert!(rt; returned.rip == 3);
    assert!(rt; returned.gpr[4] == 0x1004);
    // LOOP with CX 0: the count wraps, and the jump is taken.
    let looped = after(&mut m, &[0xE2, 0x10]).expect(&rt, "LOOP");
    assert!(rt; looped.gpr[1] == 0xFFFF);
    assert!(rt; looped.rip == 0x15);
    // STI turns IF on, and its retirement says so once.
    let flow = run(&mut m, &[0xFB]).expect(&rt, "STI");
    assert!(rt; matches!(flow, Flow::Finish { retire: 1, .. }));
    let flow = run(&mut m, &[0xFB]).expect(&rt, "STI");
    assert!(rt; matches!(flow, Flow::Finish { retire: 0, .. }));
    // INT 21h.
    let flow = run(&mut m, &[0xCD, 0x21]).expect(&rt, "INT");
    let event = Event {
        kind: EventKind::Int,
        vector: 0x21,
        next: 0x19,
    };
    assert!(rt; flow == Flow::Stopped(Stop::Event(event)));
}
