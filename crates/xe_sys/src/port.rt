//! IN and OUT.
#![tactic(auto, using(xe_ctx::proofs::Trees::row_rules))]

ghost use Rattle.std.specs.Prelude.{◌≡◌, ◌||◌, ◌==◌, ◌<◌, ◌≤◌, ◌*◌, ◌%◌, ◌^◌, IsTrue};
ghost use Rattle.xe_base.specs.Access.{IsWellFormed};
ghost use Rattle.xe_icpt.specs.Points.{IsPoint};
ghost use Rattle.xe_ctx.specs.Contract.{ℕ, IsOf, HasLeft, IsReady, RunsWithin, Finishes, cpu_of};
ghost use Rattle.xe_sys.specs.Port.{names_port, port_of, port_size, port_point, port_read, port_write, port_checked, in_row, out_row};

use xe_base::{Access, Cpu, Space};
use xe_ctx::operand::{AX, DX, done, read_register, write_register};
use xe_ctx::{Bus, Ctx, End, Stop};
use xe_icpt::{Intercepts, Point};
use xe_opmap::Insn;

/// Whether the port is an immediate byte, E4 to E7, and not DX.
fn names_port(insn: &Insn) -> bool
    ensures { result ≡ names_port insn.now }
{
    insn.opcode < 0xE8
}

/// The port of the instruction.
fn port_of(insn: &Insn, cpu: &Cpu) -> u16
    ensures { result ≡ port_of insn.now cpu.now }
{
    if names_port(insn) {
        (insn.imm % 0x100) as u16
    } else {
        (cpu.gpr[DX as usize] % 0x1_0000) as u16
    }
}

/// The bytes of its access.
fn port_size(insn: &Insn) -> u8
    ensures value { result ≡ port_size insn.now }
    ensures size { IsTrue (result == 1 || result == 2 || result == 4) }
{
    if insn.opcode % 2 == 0 {
        1
    } else if insn.opsize == 2 {
        2
    } else {
        4
    }
}

/// What it is about to do.
fn port_point(insn: &Insn, cpu: &Cpu, input: bool) -> Point
    requires { IsOf cpu.now insn.now }
    ensures value { result ≡ port_point insn.now cpu.now input }
    ensures well_formed { IsPoint result }
{
    Point::Io {
        port: port_of(insn, cpu),
        size: port_size(insn),
        input,
        string: false,
        rep: false,
        imm: names_port(insn),
        adsize: insn.adsize,
        seg: 0,
        next: cpu.next_rip(insn.len),
    }
}

/// The access that reads a port.
fn port_read(port: u16, size: u8) -> Access
    requires { IsTrue (size == 1 || size == 2 || size == 4) }
    ensures value { result ≡ port_read port size }
    ensures well_formed { IsWellFormed result }
{
    Access {
        space: Space::Port,
        write: false,
        address: port as u64,
        size,
        value: 0,
    }
}

/// The low bytes of a number.
fn cut(value: u64, size: u8) -> u64
    requires { IsTrue (size == 1 || size == 2 || size == 4) }
    ensures value { result ≡ value % 2 ^ (8 * size) }
{
    match size {
        1 => value % (1 << 8),
        2 => value % (1 << 16),
        _ => value % (1 << 32),
    }
}

/// The access that writes a port.
fn port_write(port: u16, size: u8, value: u64) -> Access
    requires { IsTrue (size == 1 || size == 2 || size == 4) }
    ensures value { result ≡ port_write port size value }
    ensures well_formed { IsWellFormed result }
{
    Access {
        space: Space::Port,
        write: true,
        address: port as u64,
        size,
        value: cut(value, size),
    }
}

/// Whether the program may use the port, and then the intercept.
#[tactic(auto, using(xe_ctx::proofs::Trees::row_rules), unfolding(crate::specs::Port::port_checked))]
fn check_port<B: Bus, I: Intercepts>(
    insn: &Insn,
    ctx: &mut Ctx<B, I>,
    cpu: &Cpu,
    input: bool,
) -> Result<(), Stop>
    requires ready { HasLeft B.sight ctx.old 4 20 }
    requires insn { IsOf cpu.now insn.now }
    requires draft { cpu.now ≡ cpu_of ctx.old }
    ensures { RunsWithin B.sight I.hits (port_checked insn.now cpu.now input) ctx.old result ctx.new 4 20 }
{
    ctx.port_allowed(port_of(insn, cpu), port_size(insn) as u32)?;
    ctx.point(&port_point(insn, cpu, input))
}

/// IN (SDM volume 2, "IN—Input From Port").
pub fn input<B: Bus, I: Intercepts>(
    insn: &Insn,
    ctx: &mut Ctx<B, I>,
    cpu: &mut Cpu,
) -> Result<End, Stop>
    requires { IsReady B.sight insn.now ctx.old cpu.old 6 30 }
    ensures { Finishes B.sight I.hits (in_row insn.now (cpu_of ctx.old)) ctx.old result cpu.new ctx.new }
{
    let size = port_size(insn);
    let access = port_read(port_of(insn, cpu), size);
    check_port(insn, ctx, cpu, true)?;
    let answer = ctx.device(access)?;
    write_register(insn, cpu, size, AX, answer.number());
    Ok(done(insn, cpu))
}

/// OUT (SDM volume 2, "OUT—Output to Port").
pub fn output<B: Bus, I: Intercepts>(
    insn: &Insn,
    ctx: &mut Ctx<B, I>,
    cpu: &mut Cpu,
) -> Result<End, Stop>
    requires { IsReady B.sight insn.now ctx.old cpu.old 6 30 }
    ensures { Finishes B.sight I.hits (out_row insn.now (cpu_of ctx.old)) ctx.old result cpu.new ctx.new }
{
    let size = port_size(insn);
    let value = read_register(insn, cpu, size, AX);
    let access = port_write(port_of(insn, cpu), size, value);
    check_port(insn, ctx, cpu, false)?;
    ctx.device(access)?;
    Ok(done(insn, cpu))
}
