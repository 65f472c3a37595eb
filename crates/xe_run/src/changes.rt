//! The registers that differ between two states.
ghost use Rattle.std.specs.Prelude.{◌≡◌, ◌+◌, ◌*◌, ◌<◌, ◌≤◌, ◌++◌, length};
ghost use Rattle.xe_run.specs.Changes as spec;

use crate::line::Line;
use xe_base::{Cpu, Seg, Table};

/// The name of a general register, by its number in the encoding.
#[inline]
pub(crate) fn general_name(number: usize) -> &'static [u8]
    requires { number < 16 }
    ensures name { result.now ≡ spec.general_name number }
    ensures short { length result.now ≤ 4 }
{
    match number {
        0 => b"rax",
        1 => b"rcx",
        2 => b"rdx",
        3 => b"rbx",
        4 => b"rsp",
        5 => b"rbp",
        6 => b"rsi",
        7 => b"rdi",
        8 => b"r8",
        9 => b"r9",
        10 => b"r10",
        11 => b"r11",
        12 => b"r12",
        13 => b"r13",
        14 => b"r14",
        15 => b"r15",
        _ => unreachable!(),
    }
}

/// Appends a register's name and its value. It stays a call, since few of the registers differ at a
/// step, and the tests of all of them are one straight line then.
#[inline(never)]
pub(crate) fn push_named(line: &mut Line, name: &[u8], value: u64)
    requires short { length name.now ≤ 5 }
    requires room { length line.old + 23 ≤ 1024 }
    ensures text { line.new ≡ line.old ++ spec.named name.now value }
    ensures len { length line.new ≤ length line.old + length name.now + 18 }
{
    line.push(b" ");
    line.push(name);
    line.push(b"=");
    line.push_hex(value);
}

/// Appends a register's name and its new value, unless it stayed the same.
#[inline(always)]
fn push_change(line: &mut Line, name: &[u8], same: bool, value: u64)
    requires short { length name.now ≤ 4 }
    requires room { length line.old + 23 ≤ 1024 }
    ensures text { line.new ≡ line.old ++ spec.change name.now same value }
    ensures len { length line.new ≤ length line.old + 22 }
{
    if !same {
        push_named(line, name, value);
    }
}

/// Appends a register that is a number, unless it stayed the same.
#[tactic(auto, unfolding(crate::specs::Changes::number_change))]
#[inline(always)]
fn push_number(line: &mut Line, name: &[u8], old: u64, new: u64)
    requires short { length name.now ≤ 4 }
    requires room { length line.old + 23 ≤ 1024 }
    ensures text { line.new ≡ line.old ++ spec.number_change name.now old new }
    ensures len { length line.new ≤ length line.old + 22 }
{
    push_change(line, name, old == new, new);
}

#[tactic(auto, unfolding(crate::specs::Changes::is_same_segment))]
#[inline(always)]
fn is_same_segment(a: &Seg, b: &Seg) -> bool
    ensures { result ≡ spec.is_same_segment a.now b.now }
{
    a.sel == b.sel && a.base == b.base && a.limit == b.limit && a.attr == b.attr
}

#[tactic(auto, unfolding(crate::specs::Changes::is_same_table))]
#[inline(always)]
fn is_same_table(a: &Table, b: &Table) -> bool
    ensures { result ≡ spec.is_same_table a.now b.now }
{
    a.base == b.base && a.limit == b.limit
}

/// Appends the selector of a segment register, where any part of it changed.
#[inline(always)]
fn push_segment(line: &mut Line, name: &[u8], old: &Seg, new: &Seg)
    requires short { length name.now ≤ 4 }
    requires room { length line.old + 23 ≤ 1024 }
    ensures text { line.new ≡ line.old ++ spec.segment_change name.now old.now new.now }
    ensures len { length line.new ≤ length line.old + 22 }
{
    push_change(line, name, is_same_segment(old, new), u64::from(new.sel));
}

/// Appends the base of a descriptor table register, where any part of it changed.
#[inline(always)]
fn push_table(line: &mut Line, name: &[u8], old: &Table, new: &Table)
    requires short { length name.now ≤ 4 }
    requires room { length line.old + 23 ≤ 1024 }
    ensures text { line.new ≡ line.old ++ spec.table_change name.now old.now new.now }
    ensures len { length line.new ≤ length line.old + 22 }
{
    push_change(line, name, is_same_table(old, new), new.base);
}

/// Appends the general registers that differ.
fn push_general(line: &mut Line, old: &[u64; 16], new: &[u64; 16])
    requires room { length line.old + 22 * 16 + 1 ≤ 1024 }
    ensures text { line.new ≡ line.old ++ spec.general_changes old.now new.now }
    ensures len { length line.new ≤ length line.old + 22 * 16 }
{
    for number in 0..16 {
        push_number(line, general_name(number), old[number], new[number]);
    }
}

/// Appends the segment registers that differ.
#[tactic(auto, unfolding(crate::specs::Changes::segment_changes))]
fn push_segments(line: &mut Line, old: &Cpu, new: &Cpu)
    requires room { length line.old + 22 * 8 + 1 ≤ 1024 }
    ensures text { line.new ≡ line.old ++ spec.segment_changes old.now new.now }
    ensures len { length line.new ≤ length line.old + 22 * 8 }
{
    push_segment(line, b"es", &old.es, &new.es);
    push_segment(line, b"cs", &old.cs, &new.cs);
    push_segment(line, b"ss", &old.ss, &new.ss);
    push_segment(line, b"ds", &old.ds, &new.ds);
    push_segment(line, b"fs", &old.fs, &new.fs);
    push_segment(line, b"gs", &old.gs, &new.gs);
    push_segment(line, b"ldtr", &old.ldtr, &new.ldtr);
    push_segment(line, b"tr", &old.tr, &new.tr);
}

/// Appends the descriptor table registers that differ.
#[tactic(auto, unfolding(crate::specs::Changes::table_changes))]
fn push_tables(line: &mut Line, old: &Cpu, new: &Cpu)
    requires room { length line.old + 22 * 2 + 1 ≤ 1024 }
    ensures text { line.new ≡ line.old ++ spec.table_changes old.now new.now }
    ensures len { length line.new ≤ length line.old + 22 * 2 }
{
    push_table(line, b"gdtr", &old.gdtr, &new.gdtr);
    push_table(line, b"idtr", &old.idtr, &new.idtr);
}

/// Appends the control registers, EFER, KERNEL_GS_BASE and the level that differ.
#[tactic(auto, unfolding(crate::specs::Changes::control_changes))]
fn push_control(line: &mut Line, old: &Cpu, new: &Cpu)
    requires room { length line.old + 22 * 8 + 1 ≤ 1024 }
    ensures text { line.new ≡ line.old ++ spec.control_changes old.now new.now }
    ensures len { length line.new ≤ length line.old + 22 * 8 }
{
    push_number(line, b"cr0", old.cr0, new.cr0);
    push_number(line, b"cr2", old.cr2, new.cr2);
    push_number(line, b"cr3", old.cr3, new.cr3);
    push_number(line, b"cr4", old.cr4, new.cr4);
    push_number(line, b"cr8", old.cr8, new.cr8);
    push_number(line, b"efer", old.efer, new.efer);
    push_number(line, b"kgs", old.kgs, new.kgs);
    push_number(line, b"cpl", u64::from(old.cpl), u64::from(new.cpl));
}

/// Appends each register that differs, but for RIP and RFLAGS, in the order of the trace.
#[tactic(auto, unfolding(crate::specs::Changes::changes))]
pub(crate) fn push_changes(line: &mut Line, old: &Cpu, new: &Cpu)
    requires room { length line.old + 22 * 34 + 1 ≤ 1024 }
    ensures text { line.new ≡ line.old ++ spec.changes old.now new.now }
    ensures len { length line.new ≤ length line.old + 22 * 34 }
{
    push_general(line, &old.gpr, &new.gpr);
    push_segments(line, old, new);
    push_tables(line, old, new);
    push_control(line, old, new);
}
