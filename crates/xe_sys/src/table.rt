//! Descriptor table registers.
#![tactic(auto, using(xe_ctx::proofs::Trees::row_rules))]

ghost use Rattle.std.specs.Prelude.{◌≡◌, ◌<◌, ◌^◌, ◌*◌, ◌%◌, IsTrue, true, ℕ};
ghost use Rattle.xe_base.specs.State.{needs, is_long, is_base};
ghost use Rattle.xe_ctx.specs.Contract.{is_size, IsOf, HasLeft, IsReady, RunsWithin, Finishes, cpu_of};
ghost use Rattle.xe_sys.specs.Table.{name_of, table_of, with_table, base_size, base_offset, store_at, store_row, kept_base, table_in_memory, load_at, load_row};

use xe_base::access::INVALID_OPCODE;
use xe_base::{Cpu, Fault, SegName, Table};
use xe_ctx::operand::{Operand, cut, done, operand_of};
use xe_ctx::privilege::{at_level_0, or_protection};
use xe_ctx::{Bus, Ctx, End, Stop};
use xe_icpt::{Intercepts, Point, TableName};
use xe_opmap::Insn;

/// A descriptor table with a register of its own for base and limit.
#[derive(Clone, Copy)]
pub enum DescriptorTable {
    /// GDTR.
    Global,
    /// IDTR.
    Interrupt,
}

/// The name of its register.
fn name_of(which: DescriptorTable) -> TableName
    ensures { result ≡ name_of which }
{
    match which {
        DescriptorTable::Global => TableName::Gdtr,
        DescriptorTable::Interrupt => TableName::Idtr,
    }
}

/// The register.
fn table_of(cpu: &Cpu, which: DescriptorTable) -> Table
    ensures { result ≡ table_of cpu.now which }
{
    match which {
        DescriptorTable::Global => cpu.gdtr,
        DescriptorTable::Interrupt => cpu.idtr,
    }
}

/// Writes the register.
fn set_table(cpu: &mut Cpu, which: DescriptorTable, table: Table)
    ensures { cpu.new ≡ with_table cpu.old which table }
{
    match which {
        DescriptorTable::Global => cpu.gdtr = table,
        DescriptorTable::Interrupt => cpu.idtr = table,
    }
}

/// The bytes of a base in memory: 8 in 64-bit code, else 4.
fn base_size(cpu: &Cpu) -> u8
    ensures value { result ≡ base_size cpu.now }
    ensures size { IsTrue (is_size result) }
{
    if cpu.is_long() { 8 } else { 4 }
}

/// Where the base lies behind the two bytes of the limit, in the address size.
fn base_offset(insn: &Insn, cpu: &Cpu, offset: u64) -> u64
    requires { IsOf cpu.now insn.now }
    ensures { result ≡ base_offset insn.now offset }
{
    let sum = offset.wrapping_add(2);
    match insn.adsize {
        2 => sum % (1 << 16),
        4 => sum % (1 << 32),
        _ => sum,
    }
}

/// Stores limit and base.
fn store_table<B: Bus, I: Intercepts>(
    which: DescriptorTable,
    insn: &Insn,
    ctx: &mut Ctx<B, I>,
    cpu: &mut Cpu,
    segment: SegName,
    offset: u64,
) -> Result<End, Stop>
    requires { IsReady B.sight insn.now ctx.old cpu.old 6 30 }
    ensures { Finishes B.sight I.hits (store_at which insn.now (cpu_of ctx.old) (Operand.Memory segment offset)) ctx.old result cpu.new ctx.new }
{
    let table = table_of(cpu, which);
    let size = base_size(cpu);
    let behind = base_offset(insn, cpu, offset);
    ctx.point(&Point::TableRead { t: name_of(which) })?;
    ctx.store(segment, offset, 2, cut(table.limit as u64, 2))?;
    ctx.store(segment, behind, size as u32, cut(table.base, size))?;
    Ok(done(insn, cpu))
}

/// SGDT and SIDT (SDM volume 2, "SGDT—Store Global Descriptor Table Register", "SIDT—Store Interrupt
/// Descriptor Table Register"), at every level.
pub fn store<B: Bus, I: Intercepts>(
    which: DescriptorTable,
    insn: &Insn,
    ctx: &mut Ctx<B, I>,
    cpu: &mut Cpu,
) -> Result<End, Stop>
    requires { IsReady B.sight insn.now ctx.old cpu.old 6 30 }
    ensures { Finishes B.sight I.hits (store_row which insn.now (cpu_of ctx.old)) ctx.old result cpu.new ctx.new }
{
    match operand_of(insn, cpu) {
        Operand::Register(_) => Err(Stop::Fault(Fault::plain(INVALID_OPCODE))),
        Operand::Memory(segment, offset) => store_table(which, insn, ctx, cpu, segment, offset),
    }
}

/// Of a base that was loaded what the register gets.
fn kept_base(insn: &Insn, cpu: &Cpu, base: u64) -> u64
    ensures { result ≡ kept_base insn.now cpu.now base }
{
    if cpu.is_long() {
        base
    } else if insn.opsize == 2 {
        base % (1 << 24)
    } else {
        base % (1 << 32)
    }
}

/// Limit and base in memory.
#[tactic(auto, using(xe_ctx::proofs::Trees::row_rules), unfolding(crate::specs::Table::table_in_memory))]
fn table_in_memory<B: Bus, I: Intercepts>(
    insn: &Insn,
    ctx: &mut Ctx<B, I>,
    cpu: &Cpu,
    segment: SegName,
    offset: u64,
) -> Result<Table, Stop>
    requires ready { HasLeft B.sight ctx.old 6 20 }
    requires insn { IsOf cpu.now insn.now }
    ensures { RunsWithin B.sight I.hits (table_in_memory insn.now cpu.now segment offset) ctx.old result ctx.new 6 20 }
{
    let size = base_size(cpu);
    let behind = base_offset(insn, cpu, offset);
    let limit = ctx.load(segment, offset, 2)?;
    let base = ctx.load(segment, behind, size as u32)?;
    Ok(Table {
        base: kept_base(insn, cpu, base as u64),
        limit: (limit % (1 << 16)) as u16,
    })
}

/// Loads limit and base.
fn load_table<B: Bus, I: Intercepts>(
    which: DescriptorTable,
    insn: &Insn,
    ctx: &mut Ctx<B, I>,
    cpu: &mut Cpu,
    segment: SegName,
    offset: u64,
) -> Result<End, Stop>
    requires { IsReady B.sight insn.now ctx.old cpu.old 6 30 }
    ensures { Finishes B.sight I.hits (load_at which insn.now (cpu_of ctx.old) (Operand.Memory segment offset)) ctx.old result cpu.new ctx.new }
{
    at_level_0(ctx)?;
    ctx.point(&Point::TableWrite { t: name_of(which) })?;
    let table = table_in_memory(insn, ctx, cpu, segment, offset)?;
    or_protection(ctx, !cpu.is_long() || cpu.is_base(table.base))?;
    set_table(cpu, which, table);
    Ok(done(insn, cpu))
}

/// LGDT and LIDT (SDM volume 2, "LGDT/LIDT—Load Global/Interrupt Descriptor Table Register").
pub fn load<B: Bus, I: Intercepts>(
    which: DescriptorTable,
    insn: &Insn,
    ctx: &mut Ctx<B, I>,
    cpu: &mut Cpu,
) -> Result<End, Stop>
    requires { IsReady B.sight insn.now ctx.old cpu.old 6 30 }
    ensures { Finishes B.sight I.hits (load_row which insn.now (cpu_of ctx.old)) ctx.old result cpu.new ctx.new }
{
    match operand_of(insn, cpu) {
        Operand::Register(_) => Err(Stop::Fault(Fault::plain(INVALID_OPCODE))),
        Operand::Memory(segment, offset) => load_table(which, insn, ctx, cpu, segment, offset),
    }
}
