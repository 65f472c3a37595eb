//! The names of instructions, for a log.

ghost use Rattle.std.specs.Prelude.{◌≡◌, ◌<◌, length, take, if◌then◌else◌, Some, None};
ghost use Rattle.x86emu_c.specs.Emulated.{Emulated, machine_in};
ghost use Rattle.x86emu_c.specs.Named.{row_text, row_of, Named};

use crate::handle::Handle;
use crate::status::{NO_MACHINE, OK};
use std::alloc::Global;
use xe_ctx::Report;
use xe_opmap::{Row, row_name};

/// `x86emu_name_text`: a name with zeros behind it.
#[repr(C)]
#[derive(Clone, Copy)]
pub struct X86emuNameText {
    pub text: [u8; 16],
}

/// The name of an instruction; nothing where there is none.
fn bytes_of(row: Option<Row>) -> &'static [u8]
    ensures { result.now ≡ row_text row }
{
    match row {
        Some(row) => row_name(row).as_bytes(),
        None => b"",
    }
}

/// The instruction of the last step of a run, or of the last one that finished.
fn row_of(report: &Report, finished: bool) -> Option<Row>
    ensures { result ≡ row_of report.now finished }
{
    if finished {
        report.finished
    } else {
        report.row
    }
}

impl X86emuNameText {
    /// The name for C.
    fn of(row: Option<Row>) -> X86emuNameText
        ensures { Named row result }
    {
        let name = bytes_of(row);
        let mut text = [0; 16];
        if name.len() < 16 {
            text[..name.len()].copy_from_slice(name);
        }
        X86emuNameText { text }
    }
}

#[unsafe(no_mangle)]
pub extern "C" fn x86emu_instruction(
    alloc: Global,
    m: &mut Handle,
    finished: bool,
    name: &mut X86emuNameText,
) -> u32
    ensures none { machine_in m.old ≡ None → result ≡ 1 }
    ensures named { (e : Emulated) → machine_in m.old ≡ Some e → (result ≡ 0) × Named (row_of e.report finished) name.new }
    ensures stays { machine_in m.new ≡ machine_in m.old }
{
    let Some(b) = m.take(alloc) else {
        return NO_MACHINE;
    };
    *name = X86emuNameText::of(row_of(&b.report, finished));
    *m = Handle::of(b);
    OK
}
