//! Scenes and their commands.
ghost use Rattle.std.specs.Prelude.{◌≡◌, ◌<◌, ◌≤◌, All, length, slice_get, Some, vec_len};
ghost use Rattle.xe_scene.specs.Formed.{IsFormed};
ghost use Rattle.xe_scene.specs.Queues.{is_write};

use arrayvec::ArrayVec;
use std::marker::Model;
use xe_base::Space;
use xe_icpt::SvmName;
use xe_mem::Region;

/// A register that a scene sets by its name.
#[derive(Clone, Copy, Debug, PartialEq, Eq)]
pub enum RegName {
    Rax,
    Rcx,
    Rdx,
    Rbx,
    Rsp,
    Rbp,
    Rsi,
    Rdi,
    R8,
    R9,
    R10,
    R11,
    R12,
    R13,
    R14,
    R15,
    Rip,
    Rflags,
    Cr0,
    Cr2,
    Cr3,
    Cr4,
    Cr8,
    Efer,
    Kgs,
    Cpl,
}

/// A segment register that a scene sets by its name.
#[derive(Clone, Copy, Debug, PartialEq, Eq)]
pub enum SegReg {
    Es,
    Cs,
    Ss,
    Ds,
    Fs,
    Gs,
    Ldtr,
    Tr,
}

/// A table register that a scene sets by its name.
#[derive(Clone, Copy, Debug, PartialEq, Eq)]
pub enum DtName {
    Gdtr,
    Idtr,
}

/// Whether a device is read or written.
#[derive(Clone, Copy, Debug, Default, PartialEq, Eq, PartialOrd, Ord)]
pub enum Dir {
    #[default]
    Read,
    Write,
}

impl Dir {
    /// Whether the device is written.
    pub fn is_write(&self) -> bool
        ensures { result ≡ is_write self.now }
    {
        matches!(self, Dir::Write)
    }
}

/// What a scripted device does when it is asked once.
#[derive(Clone, Copy, Debug, Default, PartialEq, Eq)]
pub enum Item {
    /// Isn't ready yet; the access can be asked for again.
    #[default]
    Wait,
    /// Answers this value, truncated to the size of the access.
    Value(u64),
    /// Answers that there is no such model-specific register.
    No,
    /// Fails: the access isn't made.
    Fail,
}

/// One command of a scene, with the words of its line in their order.
#[derive(Drop)]
pub enum Command {
    /// Sets a register; `cpl` to at most FFh.
    Reg(RegName, u64),
    /// Sets the selector (at most FFFFh), the base, the limit (at most FFFFFFFFh) and the attributes
    /// (at most FFFFh) of a segment register.
    Seg(SegReg, u64, u64, u64, u64),
    /// Sets the base and the limit (at most FFFFh) of a table register.
    Table(DtName, u64, u64),
    /// Puts 1 to 64 bytes into RAM, at a physical address.
    Poke(u64, ArrayVec<u8, 64>),
    /// Appends 1 to 16 items to the queue of a space, a direction and an address.
    Dev(Space, Dir, u64, ArrayVec<Item, 16>),
    /// Sets an intercept.
    Icpt(SvmName),
    /// Clears an intercept.
    Unicpt(SvmName),
    /// Sets the bits of the ports from the first to the second, which is not below it; both at most FFFFh.
    Ioport(u64, u64),
    /// Adds a model-specific register, at most FFFFFFFFh, with a direction.
    Icptmsr(Dir, u64),
    /// Sets how many steps a turn takes at most, 1 to 1000.
    Batch(u64),
    /// Runs up to so many steps, 1 to 1,000,000.
    Run(u64),
    /// Makes one call of the emulator, which keeps the record of a suspended step.
    Call,
    /// Shows the registers.
    Show,
    /// Shows so many bytes of RAM, 1 to 1000h, from a physical address on.
    Dump(u64, u64),
}

/// Commands in the order of their lines.
#[derive(Drop)]
pub struct Commands {
    list: Vec<Command>,
}

impl Model for Commands {
    ghost use Rattle.std.specs.Prelude.{List};
    ghost use Rattle.xe_scene.specs.declared.command.Command.{Command};
    ghost use Rattle.xe_scene.specs.CommandsInside.{AreCommands};

    ghost Value = { List Command };

    ghost view = { λ c. c.list.items };

    ghost invariant = { AreCommands };
}

impl Commands {
    pub(crate) fn new(list: Vec<Command>) -> Commands
        requires few { vec_len list ≤ 4096 }
        requires formed { All IsFormed list.items }
        ensures { result ≡ list.items }
    {
        Commands { list }
    }

    /// How many commands there are.
    pub fn len(&self) -> u32
        ensures count { result ≡ length self.now }
        ensures most { length self.now ≤ 4096 }
    {
        self.list.len() as u32
    }

    /// The command at a place, counted from 0. Its words are in the range of their fields, and only
    /// items for model-specific registers are `No`.
    pub fn get(&self, i: u32) -> &Command
        requires { i < length self.now }
        ensures command { slice_get self.now i ≡ Some result.now }
        ensures formed { IsFormed result.now }
    {
        &self.list[i as usize]
    }
}

/// What an accepted text says: its RAM, and its commands.
#[derive(Drop)]
pub struct Scene {
    pub regions: ArrayVec<Region, 16>,
    pub commands: Commands,
}
