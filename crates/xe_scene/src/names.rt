//! The names of commands, registers, intercepts, spaces and directions.
ghost use Rattle.std.specs.Prelude.{◌≡◌};
ghost use Rattle.xe_scene.specs.Names as spec;

use crate::command::{Dir, DtName, RegName, SegReg};
use crate::reason::Reason;
use bitflags::Flags;
use xe_base::Space;
use xe_icpt::SvmName;

/// The name of a command.
#[derive(Clone, Copy)]
pub(crate) enum CommandName {
    Ram,
    Reg,
    Seg,
    Table,
    Poke,
    Dev,
    Icpt,
    Unicpt,
    Ioport,
    Icptmsr,
    Batch,
    Run,
    Call,
    Show,
    Dump,
}

#[tactic(auto, unfolding(crate::specs::Names::command_name))]
pub(crate) fn command_name(word: &[u8]) -> Result<CommandName, Reason>
    ensures { result ≡ spec.command_name word.now }
{
    if word == b"unicpt".as_slice() {
        return Ok(CommandName::Unicpt);
    }
    if word == b"ioport".as_slice() {
        return Ok(CommandName::Ioport);
    }
    if word == b"icptmsr".as_slice() {
        return Ok(CommandName::Icptmsr);
    }
    match word {
        b"ram" => Ok(CommandName::Ram),
        b"reg" => Ok(CommandName::Reg),
        b"seg" => Ok(CommandName::Seg),
        b"table" => Ok(CommandName::Table),
        b"poke" => Ok(CommandName::Poke),
        b"dev" => Ok(CommandName::Dev),
        b"icpt" => Ok(CommandName::Icpt),
        b"batch" => Ok(CommandName::Batch),
        b"run" => Ok(CommandName::Run),
        b"call" => Ok(CommandName::Call),
        b"show" => Ok(CommandName::Show),
        b"dump" => Ok(CommandName::Dump),
        _ => Err(Reason::UnknownCommand),
    }
}

#[tactic(auto, unfolding(crate::specs::Names::register_name))]
pub(crate) fn register_name(word: &[u8]) -> Result<RegName, Reason>
    ensures { result ≡ spec.register_name word.now }
{
    if word == b"rflags".as_slice() {
        return Ok(RegName::Rflags);
    }
    match word {
        b"rax" => Ok(RegName::Rax),
        b"rcx" => Ok(RegName::Rcx),
        b"rdx" => Ok(RegName::Rdx),
        b"rbx" => Ok(RegName::Rbx),
        b"rsp" => Ok(RegName::Rsp),
        b"rbp" => Ok(RegName::Rbp),
        b"rsi" => Ok(RegName::Rsi),
        b"rdi" => Ok(RegName::Rdi),
        b"r8" => Ok(RegName::R8),
        b"r9" => Ok(RegName::R9),
        b"r10" => Ok(RegName::R10),
        b"r11" => Ok(RegName::R11),
        b"r12" => Ok(RegName::R12),
        b"r13" => Ok(RegName::R13),
        b"r14" => Ok(RegName::R14),
        b"r15" => Ok(RegName::R15),
        b"rip" => Ok(RegName::Rip),
        b"cr0" => Ok(RegName::Cr0),
        b"cr2" => Ok(RegName::Cr2),
        b"cr3" => Ok(RegName::Cr3),
        b"cr4" => Ok(RegName::Cr4),
        b"cr8" => Ok(RegName::Cr8),
        b"efer" => Ok(RegName::Efer),
        b"kgs" => Ok(RegName::Kgs),
        b"cpl" => Ok(RegName::Cpl),
        _ => Err(Reason::UnknownName),
    }
}

/// The greatest value of a register: `cpl` has one byte, all others have 64 bits.
pub(crate) fn register_most(name: RegName) -> u64
    ensures { result ≡ spec.register_most name }
{
    match name {
        RegName::Cpl => 0xff,
        _ => u64::MAX,
    }
}

#[tactic(auto, unfolding(crate::specs::Names::segment_name))]
pub(crate) fn segment_name(word: &[u8]) -> Result<SegReg, Reason>
    ensures { result ≡ spec.segment_name word.now }
{
    match word {
        b"es" => Ok(SegReg::Es),
        b"cs" => Ok(SegReg::Cs),
        b"ss" => Ok(SegReg::Ss),
        b"ds" => Ok(SegReg::Ds),
        b"fs" => Ok(SegReg::Fs),
        b"gs" => Ok(SegReg::Gs),
        b"ldtr" => Ok(SegReg::Ldtr),
        b"tr" => Ok(SegReg::Tr),
        _ => Err(Reason::UnknownName),
    }
}

#[tactic(auto, unfolding(crate::specs::Names::table_name))]
pub(crate) fn table_name(word: &[u8]) -> Result<DtName, Reason>
    ensures { result ≡ spec.table_name word.now }
{
    match word {
        b"gdtr" => Ok(DtName::Gdtr),
        b"idtr" => Ok(DtName::Idtr),
        _ => Err(Reason::UnknownName),
    }
}

#[tactic(auto, unfolding(crate::specs::Names::space_of))]
pub(crate) fn space_of(word: &[u8]) -> Result<Space, Reason>
    ensures { result ≡ spec.space_of word.now }
{
    match word {
        b"mem" => Ok(Space::Mem),
        b"port" => Ok(Space::Port),
        b"msr" => Ok(Space::Msr),
        b"cpuid" => Ok(Space::Cpuid),
        _ => Err(Reason::UnknownName),
    }
}

#[tactic(auto, unfolding(crate::specs::Names::direction_of))]
pub(crate) fn direction_of(word: &[u8]) -> Result<Dir, Reason>
    ensures { result ≡ spec.direction_of word.now }
{
    match word {
        b"r" => Ok(Dir::Read),
        b"w" => Ok(Dir::Write),
        _ => Err(Reason::UnknownName),
    }
}

/// The intercept of a name. Text that is no UTF-8 is the name of none.
pub(crate) fn intercept_name(word: &[u8]) -> Result<SvmName, Reason>
    ensures { result ≡ spec.intercept_name word.now }
{
    match str::from_utf8(word) {
        Ok(name) => SvmName::from_name(name).ok_or(Reason::UnknownName),
        Err(_) => Err(Reason::UnknownName),
    }
}
