//! The text of device accesses.
ghost use Rattle.std.specs.Prelude.{◌≡◌, ◌+◌, ◌≤◌, ◌++◌, length};
ghost use Rattle.xe_run.specs.Text as spec;

use crate::line::Line;
use xe_base::{Access, Answer, Made, Space};

/// The name of a space.
fn space_name(space: Space) -> &'static [u8]
    ensures name { result.now ≡ spec.space_name space }
    ensures short { length result.now ≤ 5 }
{
    match space {
        Space::Mem => b"mem",
        Space::Port => b"port",
        Space::Msr => b"msr",
        Space::Cpuid => b"cpuid",
    }
}

/// The name of a direction.
fn direction_name(write: bool) -> &'static [u8]
    ensures name { result.now ≡ spec.direction_name write }
    ensures short { length result.now ≤ 1 }
{
    if write { b"w" } else { b"r" }
}

/// Appends an access up to its value.
#[tactic(auto, unfolding(crate::specs::Text::place_text))]
fn push_place(line: &mut Line, access: &Access)
    requires room { length line.old + 72 ≤ 1024 }
    ensures text { line.new ≡ line.old ++ spec.place_text access.now }
    ensures len { length line.new ≤ length line.old + 72 }
{
    line.push(space_name(access.space));
    line.push(b" ");
    line.push(direction_name(access.write));
    line.push(b" ");
    line.push_hex(access.address);
    line.push(b" ");
    line.push_decimal(u64::from(access.size));
}

/// Appends what was written, or what was read, or that there is nothing to read.
fn push_value(line: &mut Line, access: &Access, answer: Answer)
    requires room { length line.old + 16 ≤ 1024 }
    ensures text { line.new ≡ line.old ++ spec.value_text access.now answer }
    ensures len { length line.new ≤ length line.old + 16 }
{
    match answer {
        Answer::No => line.push(b"no"),
        Answer::Val(value) => line.push_hex(if access.write { access.value } else { value }),
    }
}

/// Appends an access that was answered.
#[tactic(auto, unfolding(crate::specs::Text::made_text))]
pub(crate) fn push_made(line: &mut Line, made: &Made)
    requires room { length line.old + 89 ≤ 1024 }
    ensures text { line.new ≡ line.old ++ spec.made_text made.now }
    ensures len { length line.new ≤ length line.old + 89 }
{
    push_place(line, &made.access);
    line.push(b" ");
    push_value(line, &made.access, made.answer);
}

/// Appends an access with its own value: what is to be written, and 0 for a read.
#[tactic(auto, unfolding(crate::specs::Text::access_text))]
pub(crate) fn push_access(line: &mut Line, access: &Access)
    requires room { length line.old + 89 ≤ 1024 }
    ensures text { line.new ≡ line.old ++ spec.access_text access.now }
    ensures len { length line.new ≤ length line.old + 89 }
{
    push_place(line, access);
    line.push(b" ");
    line.push_hex(access.value);
}

/// Appends an access with its own value, or a dash where there is none.
pub(crate) fn push_maybe_access(line: &mut Line, access: Option<Access>)
    requires room { length line.old + 89 ≤ 1024 }
    ensures text { line.new ≡ line.old ++ spec.maybe_access access }
    ensures len { length line.new ≤ length line.old + 89 }
{
    match access {
        Some(access) => push_access(line, &access),
        None => line.push(b"-"),
    }
}
