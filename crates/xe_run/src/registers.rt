//! The registers as commands set them and as they are shown.
ghost use Rattle.std.specs.Prelude.{◌≡◌, ◌≤◌};
ghost use Rattle.xe_scene.specs.Names.{register_most};
ghost use Rattle.xe_run.specs.Drive as spec;

use crate::event::Event;
use xe_base::{Cpu, Seg, Table};
use xe_scene::{DtName, RegName, SegReg};

/// The registers with one of them set.
pub(crate) fn with_register(cpu: Cpu, name: RegName, value: u64) -> Cpu
    requires { value ≤ register_most name }
    ensures { result ≡ spec.with_register name value cpu }
{
    let mut cpu = cpu;
    match name {
        RegName::Rax => cpu.gpr[0] = value,
        RegName::Rcx => cpu.gpr[1] = value,
        RegName::Rdx => cpu.gpr[2] = value,
        RegName::Rbx => cpu.gpr[3] = value,
        RegName::Rsp => cpu.gpr[4] = value,
        RegName::Rbp => cpu.gpr[5] = value,
        RegName::Rsi => cpu.gpr[6] = value,
        RegName::Rdi => cpu.gpr[7] = value,
        RegName::R8 => cpu.gpr[8] = value,
        RegName::R9 => cpu.gpr[9] = value,
        RegName::R10 => cpu.gpr[10] = value,
        RegName::R11 => cpu.gpr[11] = value,
        RegName::R12 => cpu.gpr[12] = value,
        RegName::R13 => cpu.gpr[13] = value,
        RegName::R14 => cpu.gpr[14] = value,
        RegName::R15 => cpu.gpr[15] = value,
        RegName::Rip => cpu.rip = value,
        RegName::Rflags => cpu.rflags = value,
        RegName::Cr0 => cpu.cr0 = value,
        RegName::Cr2 => cpu.cr2 = value,
        RegName::Cr3 => cpu.cr3 = value,
        RegName::Cr4 => cpu.cr4 = value,
        RegName::Cr8 => cpu.cr8 = value,
        RegName::Efer => cpu.efer = value,
        RegName::Kgs => cpu.kgs = value,
        RegName::Cpl => cpu.cpl = value as u8,
    }
    cpu
}

/// The registers with a segment register set.
pub(crate) fn with_segment(cpu: Cpu, name: SegReg, value: Seg) -> Cpu
    ensures { result ≡ spec.with_segment name value cpu }
{
    let mut cpu = cpu;
    match name {
        SegReg::Es => cpu.es = value,
        SegReg::Cs => cpu.cs = value,
        SegReg::Ss => cpu.ss = value,
        SegReg::Ds => cpu.ds = value,
        SegReg::Fs => cpu.fs = value,
        SegReg::Gs => cpu.gs = value,
        SegReg::Ldtr => cpu.ldtr = value,
        SegReg::Tr => cpu.tr = value,
    }
    cpu
}

/// The registers with a descriptor table register set.
pub(crate) fn with_table(cpu: Cpu, name: DtName, value: Table) -> Cpu
    ensures { result ≡ spec.with_table name value cpu }
{
    let mut cpu = cpu;
    match name {
        DtName::Gdtr => cpu.gdtr = value,
        DtName::Idtr => cpu.idtr = value,
    }
    cpu
}

/// All registers, one event for each line that shows them.
#[tactic(auto, unfolding(crate::specs::Drive::shown))]
pub(crate) fn shown(cpu: &Cpu) -> [Event; 12]
    ensures { result ≡ spec.shown cpu.now }
{
    [
        Event::General(cpu.gpr),
        Event::Control(*cpu),
        Event::Segment(SegReg::Es, cpu.es),
        Event::Segment(SegReg::Cs, cpu.cs),
        Event::Segment(SegReg::Ss, cpu.ss),
        Event::Segment(SegReg::Ds, cpu.ds),
        Event::Segment(SegReg::Fs, cpu.fs),
        Event::Segment(SegReg::Gs, cpu.gs),
        Event::Segment(SegReg::Ldtr, cpu.ldtr),
        Event::Segment(SegReg::Tr, cpu.tr),
        Event::Table(DtName::Gdtr, cpu.gdtr),
        Event::Table(DtName::Idtr, cpu.idtr),
    ]
}
