//! Elements that come from a port or go to one.
#![tactic(auto, using(xe_ctx::proofs::Trees::row_rules))]

ghost use Rattle.std.specs.Prelude.{◌≡◌, ◌<◌, ◌≤◌, ◌^◌, ◌*◌, ◌==◌, ◌||◌, IsTrue};
ghost use Rattle.xe_base.specs.Access.{IsWellFormed};
ghost use Rattle.xe_ctx.specs.Contract.{ℕ, true, false, IsOf, IsReady, HasLeft, RunsWithin, DraftsWithin, cpu_of};
ghost use Rattle.xe_icpt.specs.Points.{IsPoint};
ghost use Rattle.xe_string.specs.Port.{port_size, port_of, port_read, port_write, port_point, port_reached, received, ins_element, outs_element};

use crate::index::{DI, SI, index, move_index, source_segment};
use crate::prefix::is_repeated;
use xe_base::{Access, Cpu, SegName, Space};
use xe_ctx::operand::{DX, cut, read_register, size_by_opcode};
use xe_ctx::{Bus, Ctx, Stop};
use xe_icpt::{Intercepts, Point};
use xe_opmap::Insn;

/// The bytes of an element: a port has at most 4.
fn port_size(insn: &Insn, cpu: &Cpu) -> u8
    requires { IsOf cpu.now insn.now }
    ensures value { result ≡ port_size insn.now }
    ensures size { IsTrue (result == 1 || result == 2 || result == 4) }
{
    match size_by_opcode(insn, cpu) {
        8 => 4,
        size => size,
    }
}

/// The port, which DX names.
#[tactic(auto, unfolding(xe_base::specs::Registers::register_value))]
fn port_of(insn: &Insn, cpu: &Cpu) -> u16
    ensures { result ≡ port_of insn.now cpu.now }
{
    read_register(insn, cpu, 2, DX) as u16
}

fn port_read(port: u16, size: u8) -> Access
    requires { IsTrue (size == 1 || size == 2 || size == 4) }
    ensures value { result ≡ port_read port size }
    ensures well_formed { IsWellFormed result }
{
    Access {
        space: Space::Port,
        write: false,
        address: port as u64,
        size,
        value: 0,
    }
}

fn port_write(port: u16, size: u8, value: u64) -> Access
    requires size { IsTrue (size == 1 || size == 2 || size == 4) }
    requires fits { value < 2 ^ (8 * size) }
    ensures value { result ≡ port_write port size value }
    ensures well_formed { IsWellFormed result }
{
    Access {
        space: Space::Port,
        write: true,
        address: port as u64,
        size,
        value,
    }
}

/// What an element is about to do that lies in this segment.
fn port_point(insn: &Insn, cpu: &Cpu, input: bool, segment: SegName) -> Point
    requires { IsOf cpu.now insn.now }
    ensures value { result ≡ port_point insn.now cpu.now input segment }
    ensures well_formed { IsPoint result }
{
    Point::Io {
        port: port_of(insn, cpu),
        size: port_size(insn, cpu),
        input,
        string: true,
        rep: is_repeated(insn),
        imm: false,
        adsize: insn.adsize,
        seg: segment.number(),
        next: cpu.next_rip(insn.len),
    }
}

/// The port may be used, and isn't intercepted.
#[tactic(auto, using(xe_ctx::proofs::Trees::row_rules), unfolding(crate::specs::Port::port_reached))]
fn reach_port<B: Bus, I: Intercepts>(
    insn: &Insn,
    ctx: &mut Ctx<B, I>,
    input: bool,
    segment: SegName,
) -> Result<(), Stop>
    requires ready { HasLeft B.sight ctx.old 4 20 }
    requires insn { IsOf (cpu_of ctx.old) insn.now }
    ensures { RunsWithin B.sight I.hits (port_reached insn.now (cpu_of ctx.old) input segment) ctx.old result ctx.new 4 20 }
{
    let (port, size) = (port_of(insn, ctx.cpu()), port_size(insn, ctx.cpu()));
    let point = port_point(insn, ctx.cpu(), input, segment);
    ctx.port_allowed(port, size as u32)?;
    ctx.point(&point)
}

/// What the port gives goes to an offset in ES; memory there can be written before the port is read.
#[tactic(auto, using(xe_ctx::proofs::Trees::row_rules), unfolding(crate::specs::Port::received))]
fn receive<B: Bus, I: Intercepts>(
    ctx: &mut Ctx<B, I>,
    port: u16,
    offset: u64,
    size: u8,
) -> Result<(), Stop>
    requires ready { HasLeft B.sight ctx.old 5 28 }
    requires size { IsTrue (size == 1 || size == 2 || size == 4) }
    ensures { RunsWithin B.sight I.hits (received port offset size) ctx.old result ctx.new 5 28 }
{
    ctx.probe(SegName::Es, offset, size as u32)?;
    let answer = ctx.device(port_read(port, size))?;
    ctx.store(SegName::Es, offset, size as u32, cut(answer.number(), size))
}

/// An element of INS (SDM volume 2, "INS/INSB/INSW/INSD").
#[tactic(auto, using(xe_ctx::proofs::Trees::row_rules), unfolding(crate::specs::Port::ins_element))]
pub fn ins<B: Bus, I: Intercepts>(
    insn: &Insn,
    ctx: &mut Ctx<B, I>,
    cpu: &mut Cpu,
) -> Result<(), Stop>
    requires { IsReady B.sight insn.now ctx.old cpu.old 9 48 }
    ensures { DraftsWithin B.sight I.hits (ins_element insn.now (cpu_of ctx.old)) ctx.old result cpu.new ctx.new 9 48 }
{
    let size = port_size(insn, cpu);
    let (port, to) = (port_of(insn, cpu), index(insn, cpu, DI));
    reach_port(insn, ctx, true, SegName::Es)?;
    receive(ctx, port, to, size)?;
    move_index(insn, cpu, DI, size);
    Ok(())
}

/// An element of OUTS (SDM volume 2, "OUTS/OUTSB/OUTSW/OUTSD").
#[tactic(auto, using(xe_ctx::proofs::Trees::row_rules), unfolding(crate::specs::Port::outs_element))]
pub fn outs<B: Bus, I: Intercepts>(
    insn: &Insn,
    ctx: &mut Ctx<B, I>,
    cpu: &mut Cpu,
) -> Result<(), Stop>
    requires { IsReady B.sight insn.now ctx.old cpu.old 9 48 }
    ensures { DraftsWithin B.sight I.hits (outs_element insn.now (cpu_of ctx.old)) ctx.old result cpu.new ctx.new 9 48 }
{
    let size = port_size(insn, cpu);
    let (port, from) = (port_of(insn, cpu), index(insn, cpu, SI));
    let segment = source_segment(insn);
    reach_port(insn, ctx, false, segment)?;
    let value = ctx.load(segment, from, size as u32)?;
    ctx.device(port_write(port, size, value as u64))?;
    move_index(insn, cpu, SI, size);
    Ok(())
}
