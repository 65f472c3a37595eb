//! Texts, line by line.
ghost use Rattle.std.specs.Prelude.{◌≡◌, ◌+◌, ◌≤◌, ◌<◌, ◌^◌, length, take, IfOk};
ghost use Rattle.std.specs.List.{count_by, slice_split};
ghost use Rattle.xe_mem.specs.Layout.{IsLayout};
ghost use Rattle.xe_scene.specs.Scene as spec;
ghost use Rattle.xe_scene.specs.Puts.{Puts};
ghost use Rattle.xe_scene.specs.Faults.{Reads, located};

use crate::command::Scene;
use crate::reader::{LineFault, Reader};
use crate::reason::Reason;
use std::alloc::Global;
use thiserror::Error;

/// The bytes that a text has at most.
pub const TEXT_MOST: usize = 1_048_576;

/// Why a text gives no scene.
#[derive(Debug, Drop, Error)]
pub enum SceneFault {
    /// Memory was refused.
    #[error("no memory for the scene")]
    NoMemory,
    /// The first bad line, counted from 1, and the number of its reason, 1 to 15. Reason 14 is that
    /// the text is longer than 1,048,576 bytes; it is looked at first, and then the line is the one
    /// in which the text gets too long.
    #[error("line {number} is refused for reason {reason}")]
    Line { number: u32, reason: u8 },
}

/// Reads the line that follows so many lines.
#[tactic(auto, unfolding(crate::specs::Scene::line_after))]
fn line_after(alloc: Global, before: u32, reader: &mut Reader, line: &[u8]) -> Result<(), LineFault>
    ensures { Puts result (spec.line_after before reader.old line.now) reader.new }
{
    if before == 0 {
        if line == b"x86emu 1".as_slice() {
            return Ok(());
        }
        return Err(LineFault::Bad(Reason::Header));
    }
    reader.line(alloc, line)
}

/// A fault of a line.
fn at_line(fault: LineFault, number: u32) -> SceneFault
    ensures { result ≡ located fault number }
{
    match fault {
        LineFault::NoMemory => SceneFault::NoMemory,
        LineFault::Bad(reason) => SceneFault::Line {
            number,
            reason: reason.number(),
        },
    }
}

/// Reads all lines.
fn read_lines(alloc: Global, bytes: &[u8]) -> Result<Scene, SceneFault>
    requires { length bytes.now ≤ TEXT_MOST }
    ensures lines { Reads result (spec.lines_say 0 spec.nothing (slice_split spec.is_newline bytes.now)) }
    ensures regions { IfOk result (λ s. IsLayout s.regions.items) }
{
    let mut reader = Reader::new(alloc);
    let mut before = 0u32;
    for line in bytes.split(|b| *b == b'\n') {
        let number = before + 1;
        match line_after(alloc, before, &mut reader, line) {
            Ok(()) => before = number,
            Err(fault) => return Err(at_line(fault, number)),
        }
    }
    Ok(reader.into_scene())
}

/// The number of the line in which the text gets too long.
fn last_line(bytes: &[u8], most: usize) -> u32
    requires within { most ≤ length bytes.now }
    requires small { most < 2 ^ 31 }
    ensures { result ≡ 1 + count_by spec.is_newline (take most bytes.now) }
{
    1 + newlines(&bytes[..most]) as u32
}

fn newlines(bytes: &[u8]) -> usize
    ensures count { result ≡ count_by spec.is_newline bytes.now }
    ensures most { result ≤ length bytes.now }
{
    bytes.iter().filter(|b| **b == b'\n').count()
}

/// Reads a text: its scene, or its first bad line, or NoMemory where memory was refused. The regions
/// of a scene are such that guest memory of them is only refused for want of memory.
///
/// The grammar and its reasons are this project's own (docs/SCENARIO.md).
#[tactic(auto, unfolding(crate::specs::Scene::scene_within))]
pub fn read_scene(alloc: Global, bytes: &[u8]) -> Result<Scene, SceneFault>
    ensures text { Reads result (spec.scene bytes.now) }
    ensures regions { IfOk result (λ s. IsLayout s.regions.items) }
{
    if bytes.len() > TEXT_MOST {
        return Err(SceneFault::Line {
            number: last_line(bytes, TEXT_MOST),
            reason: Reason::TooLong.number(),
        });
    }
    read_lines(alloc, bytes)
}
