//! Worked examples: a few instructions from their bytes.

ghost use Rattle.std.specs.Prelude.{◌≤◌, length, None};

use crate::{
    exec, is_row, privileged_rows_need_level_0, rows_change_states_calmly, rows_keep_states_valid,
    rows_take_little,
};
use std::alloc::Global;
use std::process::Abort;
use std::test::Fail;
use xe_base::{Access, Answer, Cpu, Space};
use xe_ctx::{Bus, Ctx, Flow, Record, Reply, Stop};
use xe_icpt::{SvmName, SvmSet};
use xe_opmap::{Decoded, decode};
use xe_testing::machine;

/// Each device answers 0, but for one model-specific register; the others aren't there.
#[derive(Drop)]
struct OneMsr;

impl Bus for OneMsr {
    ghost use Rattle.std.specs.Prelude.{None};

    ghost sight = { λ _. record { tape = None; room = 0; spare = λ _. 0; unready = 0; faults = 0 } };

    #[tactic(auto, using(xe_testing::proofs::ZeroLaws::zero_fits, crate::proofs::TestLaws::no_fits, crate::proofs::TestLaws::msr_fits))]
    fn access(&mut self, a: Access) -> Reply {
        match a.space {
            Space::Msr => {
                if a.address == 0x10 {
                    Reply::Ready(Answer::Val(0x1122_3344_5566_7788))
                } else {
                    Reply::Ready(Answer::No)
                }
            }
            Space::Mem | Space::Port | Space::Cpuid => Reply::Ready(Answer::Val(0)),
        }
    }
}

/// How an instruction of this crate's rows ends.
fn end(alloc: Global, cpu: Cpu, icpt: &SvmSet, bytes: &[u8]) -> Option<Flow>
    requires { length bytes.now ≤ 15 }
{
    let mut m = machine(alloc, cpu)?;
    let Decoded::Insn(insn) = decode(m.cpu().code_size(), bytes) else {
        return None;
    };
    if !is_row(insn.row) {
        return None;
    }
    let mut bus = OneMsr;
    let mut record = Record::new();
    let mut ctx = Ctx::begin(&mut m, icpt, &mut bus, &mut record);
    Some(exec(&insn, &mut ctx))
}

/// The registers after one that finishes.
fn after(alloc: Global, cpu: Cpu, bytes: &[u8]) -> Option<Cpu>
    requires { length bytes.now ≤ 15 }
{
    match end(alloc, cpu, &SvmSet::new(), bytes)? {
        Flow::Finish { cpu, .. } => Some(cpu),
        Flow::Stopped(_) => None,
    }
}

#[test]
fn runs_instructions(rt: HostRuntime) {
    privileged_rows_need_level_0();
    rows_change_states_calmly();
    rows_keep_states_valid();
    rows_take_little();
    let mut cpu = Cpu::reset();
    cpu.gpr[0] = 1;
    // MOV CR0, EAX: protection is turned on.
    let protected = after(rt.alloc(), cpu, &[0x0F, 0x22, 0xC0]).expect(&rt, "MOV CR0");
    assert!(rt; protected.cr0 == 0x11);
    assert!(rt; protected.rip == 3);
    // LMSW AX, of 0: PE stays.
    let mut clear = protected;
    clear.gpr[0] = 0;
    let word = after(rt.alloc(), clear, &[0x0F, 0x01, 0xF0]).expect(&rt, "LMSW");
    assert!(rt; word.cr0 == 0x11);
    // MOV CR0, EAX: PG without PE.
    cpu.gpr[0] = 1 << 31;
    assert!(rt; after(rt.alloc(), cpu, &[0x0F, 0x22, 0xC0]).is_none());
    // RDMSR of a register that is there, and of one that isn't.
    cpu.gpr[1] = 0x10;
    let read = after(rt.alloc(), cpu, &[0x0F, 0x32]).expect(&rt, "RDMSR");
    assert!(rt; read.gpr[0] == 0x5566_7788);
    assert!(rt; read.gpr[2] == 0x1122_3344);
    cpu.gpr[1] = 0x11;
    assert!(rt; after(rt.alloc(), cpu, &[0x0F, 0x32]).is_none());
}

#[test]
fn takes_exits(rt: HostRuntime) {
    let mut icpt = SvmSet::new();
    icpt.set(SvmName::CR0_SEL);
    icpt.set(SvmName::IOIO);
    icpt.ports(0, 1);
    let mut cpu = Cpu::reset();
    cpu.gpr[2] = 0xFFFF;
    // OUT DX, EAX, with a prefix that doesn't repeat it: its last bytes are at ports 0 to 2.
    let Some(Flow::Stopped(Stop::Intercept(exit))) = end(
        rt.alloc(),
        cpu,
        &icpt,
        &[0xF3, 0x66, 0xEF],
    ) else {
        panic!(rt; "OUT is not intercepted")
    };
    assert!(rt; exit.code == 0x7B);
    assert!(rt; exit.info1 == 0xFFFF_00C0);
    assert!(rt; exit.info2 == 3);
    // LMSW is selected whatever it writes; MOV to CR0 isn't where TS alone changes.
    assert!(rt;
        matches!(
            end(rt.alloc(), cpu, &icpt, &[0x0F, 0x01, 0xF0]),
            Some(Flow::Stopped(Stop::Intercept(_)))
        )
    );
    cpu.gpr[0] = 0x18;
    assert!(rt;
        matches!(
            end(rt.alloc(), cpu, &icpt, &[0x0F, 0x22, 0xC0]),
            Some(Flow::Finish { .. })
        )
    );
}
