//! The lines that show registers and memory.
ghost use Rattle.std.specs.Prelude.{◌≡◌, ◌+◌, ◌*◌, ◌<◌, ◌≤◌, ◌++◌, length};
ghost use Rattle.xe_run.specs.Shown as spec;
ghost use Rattle.xe_run.specs.Changes.{named};
ghost use Rattle.xe_run.specs.Text.{line_of};
ghost use Rattle.xe_run.specs.declared.event.Event.TheVariants as events;

use crate::changes::{general_name, push_named};
use crate::line::Line;
use arrayvec::ArrayVec;
use xe_base::{Cpu, Seg, Table};
use xe_scene::{DtName, SegReg};

/// Appends the 16 general registers.
#[tactic(auto, unfolding(crate::specs::Shown::general_text))]
fn push_general(line: &mut Line, gpr: &[u64; 16])
    requires room { length line.old + 400 ≤ 1024 }
    ensures text { line.new ≡ line.old ++ spec.general_text gpr.now }
    ensures len { length line.new ≤ length line.old + 400 }
{
    line.push(b"gpr");
    for number in 0..16 {
        push_named(line, general_name(number), gpr[number]);
    }
}

/// Appends the other registers that are numbers.
#[tactic(auto, unfolding(crate::specs::Shown::control_text))]
fn push_control(line: &mut Line, cpu: &Cpu)
    requires room { length line.old + 250 ≤ 1024 }
    ensures text { line.new ≡ line.old ++ spec.control_text cpu.now }
    ensures len { length line.new ≤ length line.old + 250 }
{
    line.push(b"ctl");
    push_named(line, b"rip", cpu.rip);
    push_named(line, b"flags", cpu.rflags);
    push_named(line, b"cr0", cpu.cr0);
    push_named(line, b"cr2", cpu.cr2);
    push_named(line, b"cr3", cpu.cr3);
    push_named(line, b"cr4", cpu.cr4);
    push_named(line, b"cr8", cpu.cr8);
    push_named(line, b"efer", cpu.efer);
    push_named(line, b"kgs", cpu.kgs);
    push_named(line, b"cpl", u64::from(cpu.cpl));
}

/// The name of a segment register.
fn segment_name(name: SegReg) -> &'static [u8]
    ensures name { result.now ≡ spec.segment_name name }
    ensures short { length result.now ≤ 4 }
{
    match name {
        SegReg::Es => b"es",
        SegReg::Cs => b"cs",
        SegReg::Ss => b"ss",
        SegReg::Ds => b"ds",
        SegReg::Fs => b"fs",
        SegReg::Gs => b"gs",
        SegReg::Ldtr => b"ldtr",
        SegReg::Tr => b"tr",
    }
}

/// Appends a segment register.
#[tactic(auto, unfolding(crate::specs::Shown::segment_text))]
fn push_segment(line: &mut Line, name: SegReg, segment: &Seg)
    requires room { length line.old + 80 ≤ 1024 }
    ensures text { line.new ≡ line.old ++ spec.segment_text name segment.now }
    ensures len { length line.new ≤ length line.old + 80 }
{
    line.push(b"seg ");
    line.push(segment_name(name));
    line.push(b" ");
    line.push_hex(u64::from(segment.sel));
    line.push(b" ");
    line.push_hex(segment.base);
    line.push(b" ");
    line.push_hex(u64::from(segment.limit));
    line.push(b" ");
    line.push_hex(u64::from(segment.attr));
}

/// The name of a descriptor table register.
fn table_name(name: DtName) -> &'static [u8]
    ensures name { result.now ≡ spec.table_name name }
    ensures short { length result.now ≤ 4 }
{
    match name {
        DtName::Gdtr => b"gdtr",
        DtName::Idtr => b"idtr",
    }
}

/// Appends a descriptor table register.
#[tactic(auto, unfolding(crate::specs::Shown::table_text))]
fn push_table(line: &mut Line, name: DtName, table: &Table)
    requires room { length line.old + 50 ≤ 1024 }
    ensures text { line.new ≡ line.old ++ spec.table_text name table.now }
    ensures len { length line.new ≤ length line.old + 50 }
{
    line.push(b"table ");
    line.push(table_name(name));
    line.push(b" ");
    line.push_hex(table.base);
    line.push(b" ");
    line.push_hex(u64::from(table.limit));
}

/// Appends bytes of memory, from an address on.
#[tactic(auto, unfolding(crate::specs::Shown::memory_text))]
fn push_memory(line: &mut Line, pa: u64, bytes: &[u8])
    requires few { length bytes.now ≤ 16 }
    requires room { length line.old + 160 ≤ 1024 }
    ensures text { line.new ≡ line.old ++ spec.memory_text pa bytes.now }
    ensures len { length line.new ≤ length line.old + 60 }
{
    line.push(b"mem ");
    line.push_hex(pa);
    line.push(b" ");
    line.push_bytes(bytes);
}

/// The line of the general registers.
pub(crate) fn general_line(gpr: &[u64; 16]) -> Line
    ensures { result ≡ line_of (events.General gpr.now) }
{
    let mut line = Line::new();
    push_general(&mut line, gpr);
    line.push(b"\n");
    line
}

/// The line of the other registers that are numbers.
pub(crate) fn control_line(cpu: &Cpu) -> Line
    ensures { result ≡ line_of (events.Control cpu.now) }
{
    let mut line = Line::new();
    push_control(&mut line, cpu);
    line.push(b"\n");
    line
}

/// The line of a segment register.
pub(crate) fn segment_line(name: SegReg, segment: &Seg) -> Line
    ensures { result ≡ line_of (events.Segment name segment.now) }
{
    let mut line = Line::new();
    push_segment(&mut line, name, segment);
    line.push(b"\n");
    line
}

/// The line of a descriptor table register.
pub(crate) fn table_line(name: DtName, table: &Table) -> Line
    ensures { result ≡ line_of (events.Table name table.now) }
{
    let mut line = Line::new();
    push_table(&mut line, name, table);
    line.push(b"\n");
    line
}

/// The line of bytes of memory.
pub(crate) fn memory_line(pa: u64, bytes: &ArrayVec<u8, 16>) -> Line
    ensures { result ≡ line_of (events.Memory pa bytes.now) }
{
    let mut line = Line::new();
    push_memory(&mut line, pa, bytes.as_slice());
    line.push(b"\n");
    line
}
