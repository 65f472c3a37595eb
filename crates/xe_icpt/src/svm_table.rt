//! The row of a point in the table of SVM intercepts: its name, its exit code and its words.

ghost use Rattle.std.specs.Prelude.{◌≡◌, ◌++◌, Some, codes};
ghost use Rattle.std.specs.Option.{option_map};
ghost use Rattle.xe_icpt.specs.Points.{IsControl, IsPoint};
ghost use Rattle.xe_icpt.specs.SvmNames.{svm_bit, svm_code};
ghost use Rattle.xe_icpt.specs.SvmSet.{svm_name, svm_exit, bits_of, digit, io_word, table_name};

use crate::exit::Exit;
use crate::point::{Point, TableName};
use crate::svm_name::SvmName;

/// The name that intercepts reads of a control register.
fn read_name(n: u8) -> SvmName
    requires { IsControl n }
    ensures { svm_bit (codes "read_cr" ++ digit n) ≡ Some (bits_of result) }
{
    match n {
        0 => SvmName::READ_CR0,
        2 => SvmName::READ_CR2,
        3 => SvmName::READ_CR3,
        4 => SvmName::READ_CR4,
        8 => SvmName::READ_CR8,
        _ => unreachable!(),
    }
}

/// The name that intercepts writes of a control register.
fn write_name(n: u8) -> SvmName
    requires { IsControl n }
    ensures { svm_bit (codes "write_cr" ++ digit n) ≡ Some (bits_of result) }
{
    match n {
        0 => SvmName::WRITE_CR0,
        2 => SvmName::WRITE_CR2,
        3 => SvmName::WRITE_CR3,
        4 => SvmName::WRITE_CR4,
        8 => SvmName::WRITE_CR8,
        _ => unreachable!(),
    }
}

/// The name that intercepts a store of a table register.
fn read_table(t: TableName) -> SvmName
    ensures { svm_bit (codes "read_" ++ table_name t) ≡ Some (bits_of result) }
{
    match t {
        TableName::Idtr => SvmName::READ_IDTR,
        TableName::Gdtr => SvmName::READ_GDTR,
        TableName::Ldtr => SvmName::READ_LDTR,
        TableName::Tr => SvmName::READ_TR,
    }
}

/// The name that intercepts a load of a table register.
fn write_table(t: TableName) -> SvmName
    ensures { svm_bit (codes "write_" ++ table_name t) ≡ Some (bits_of result) }
{
    match t {
        TableName::Idtr => SvmName::WRITE_IDTR,
        TableName::Gdtr => SvmName::WRITE_GDTR,
        TableName::Ldtr => SvmName::WRITE_LDTR,
        TableName::Tr => SvmName::WRITE_TR,
    }
}

/// The name that intercepts a point.
pub(crate) fn name_of(p: &Point) -> SvmName
    requires { IsPoint p.now }
    ensures { svm_bit (svm_name p.now) ≡ Some (bits_of result) }
{
    match *p {
        Point::CrRead { n, .. } => read_name(n),
        Point::CrWrite { n, .. } => write_name(n),
        Point::Cr0Sel => SvmName::CR0_SEL,
        Point::TableRead { t } => read_table(t),
        Point::TableWrite { t } => write_table(t),
        Point::Rdtsc => SvmName::RDTSC,
        Point::Pushf => SvmName::PUSHF,
        Point::Popf => SvmName::POPF,
        Point::Cpuid => SvmName::CPUID,
        Point::Iret => SvmName::IRET,
        Point::Swint { .. } => SvmName::SWINT,
        Point::Invd => SvmName::INVD,
        Point::Pause => SvmName::PAUSE,
        Point::Hlt => SvmName::HLT,
        Point::Invlpg { .. } => SvmName::INVLPG,
        Point::Io { .. } => SvmName::IOIO,
        Point::Msr { .. } => SvmName::MSR,
        Point::Wbinvd => SvmName::WBINVD,
    }
}

/// The exit code of a store of a table register.
fn read_table_code(t: TableName) -> u32
    ensures { svm_code (codes "read_" ++ table_name t) ≡ Some result }
{
    match t {
        TableName::Idtr => 0x66,
        TableName::Gdtr => 0x67,
        TableName::Ldtr => 0x68,
        TableName::Tr => 0x69,
    }
}

/// The exit code of a load of a table register.
fn write_table_code(t: TableName) -> u32
    ensures { svm_code (codes "write_" ++ table_name t) ≡ Some result }
{
    match t {
        TableName::Idtr => 0x6a,
        TableName::Gdtr => 0x6b,
        TableName::Ldtr => 0x6c,
        TableName::Tr => 0x6d,
    }
}

/// The exit code of a point (AMD64 APM volume 2, appendix "SVM Intercept Exit Codes").
fn code_of(p: &Point) -> u32
    requires { IsPoint p.now }
    ensures { svm_code (svm_name p.now) ≡ Some result }
{
    match *p {
        Point::CrRead { n, .. } => n as u32,
        Point::CrWrite { n, .. } => 0x10 + n as u32,
        Point::Cr0Sel => 0x65,
        Point::TableRead { t } => read_table_code(t),
        Point::TableWrite { t } => write_table_code(t),
        Point::Rdtsc => 0x6e,
        Point::Pushf => 0x70,
        Point::Popf => 0x71,
        Point::Cpuid => 0x72,
        Point::Iret => 0x74,
        Point::Swint { .. } => 0x75,
        Point::Invd => 0x76,
        Point::Pause => 0x77,
        Point::Hlt => 0x78,
        Point::Invlpg { .. } => 0x79,
        Point::Io { .. } => 0x7b,
        Point::Msr { .. } => 0x7c,
        Point::Wbinvd => 0x89,
    }
}

/// The first word of a port access.
fn io_word(port: u16, size: u8, input: bool, string: bool, rep: bool, adsize: u8, seg: u8) -> u64
    ensures { result ≡ io_word port size input string rep adsize seg }
{
    let size = u64::from(size) << 4;
    let adsize = u64::from(adsize) << 6;
    let seg = u64::from(seg) << 10;
    let port = u64::from(port) << 16;
    u64::from(input) + (u64::from(string) << 2) + (u64::from(rep) << 3) + size + adsize + seg + port
}

/// The exit of a point that is intercepted.
pub(crate) fn exit_of(p: &Point) -> Exit
    requires { IsPoint p.now }
    ensures { option_map (svm_exit p.now) (svm_code (svm_name p.now)) ≡ Some result }
{
    let (info1, info2) = match *p {
        Point::Io {
            port,
            size,
            input,
            string,
            rep,
            adsize,
            seg,
            next,
            ..
        } => (io_word(port, size, input, string, rep, adsize, seg), next),
        Point::Msr { write, .. } => (u64::from(write), 0),
        // No other exit has words of information.
        _ => (0, 0),
    };
    Exit {
        code: code_of(p),
        info1,
        info2,
    }
}
