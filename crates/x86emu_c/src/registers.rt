//! The registers as C sees them.

ghost use Rattle.std.specs.Prelude.{◌≡◌};
ghost use Rattle.x86emu_c.specs.Registers.{seg_of, table_of, cpu_of};

use xe_base::{Cpu, Seg, Table};

/// `x86emu_segment`.
#[repr(C)]
#[derive(Clone, Copy)]
pub struct X86emuSegment {
    pub base: u64,
    pub limit: u32,
    pub selector: u16,
    pub attributes: u16,
}

/// `x86emu_table`.
#[repr(C)]
#[derive(Clone, Copy)]
pub struct X86emuTable {
    pub base: u64,
    pub limit: u16,
}

/// `x86emu_cpu`.
#[repr(C)]
#[derive(Clone, Copy)]
pub struct X86emuCpu {
    pub gpr: [u64; 16],
    pub rip: u64,
    pub rflags: u64,
    pub es: X86emuSegment,
    pub cs: X86emuSegment,
    pub ss: X86emuSegment,
    pub ds: X86emuSegment,
    pub fs: X86emuSegment,
    pub gs: X86emuSegment,
    pub ldtr: X86emuSegment,
    pub tr: X86emuSegment,
    pub gdtr: X86emuTable,
    pub idtr: X86emuTable,
    pub cr0: u64,
    pub cr2: u64,
    pub cr3: u64,
    pub cr4: u64,
    pub cr8: u64,
    pub efer: u64,
    pub kgs: u64,
    pub cpl: u8,
}

impl X86emuSegment {
    fn of(seg: &Seg) -> X86emuSegment
        ensures { seg_of result ≡ seg.now }
    {
        X86emuSegment {
            base: seg.base,
            limit: seg.limit,
            selector: seg.sel,
            attributes: seg.attr,
        }
    }

    fn seg(&self) -> Seg
        ensures { result ≡ seg_of self.now }
    {
        Seg {
            sel: self.selector,
            base: self.base,
            limit: self.limit,
            attr: self.attributes,
        }
    }
}

impl X86emuTable {
    fn of(table: &Table) -> X86emuTable
        ensures { table_of result ≡ table.now }
    {
        X86emuTable {
            base: table.base,
            limit: table.limit,
        }
    }

    fn table(&self) -> Table
        ensures { result ≡ table_of self.now }
    {
        Table {
            base: self.base,
            limit: self.limit,
        }
    }
}

impl X86emuCpu {
    /// The registers for C.
    pub(crate) fn of(cpu: &Cpu) -> X86emuCpu
        ensures { cpu_of result ≡ cpu.now }
    {
        X86emuCpu {
            gpr: cpu.gpr,
            rip: cpu.rip,
            rflags: cpu.rflags,
            es: X86emuSegment::of(&cpu.es),
            cs: X86emuSegment::of(&cpu.cs),
            ss: X86emuSegment::of(&cpu.ss),
            ds: X86emuSegment::of(&cpu.ds),
            fs: X86emuSegment::of(&cpu.fs),
            gs: X86emuSegment::of(&cpu.gs),
            ldtr: X86emuSegment::of(&cpu.ldtr),
            tr: X86emuSegment::of(&cpu.tr),
            gdtr: X86emuTable::of(&cpu.gdtr),
            idtr: X86emuTable::of(&cpu.idtr),
            cr0: cpu.cr0,
            cr2: cpu.cr2,
            cr3: cpu.cr3,
            cr4: cpu.cr4,
            cr8: cpu.cr8,
            efer: cpu.efer,
            kgs: cpu.kgs,
            cpl: cpu.cpl,
        }
    }

    /// The registers from C.
    pub(crate) fn cpu(&self) -> Cpu
        ensures { result ≡ cpu_of self.now }
    {
        Cpu {
            gpr: self.gpr,
            rip: self.rip,
            rflags: self.rflags,
            es: self.es.seg(),
            cs: self.cs.seg(),
            ss: self.ss.seg(),
            ds: self.ds.seg(),
            fs: self.fs.seg(),
            gs: self.gs.seg(),
            ldtr: self.ldtr.seg(),
            tr: self.tr.seg(),
            gdtr: self.gdtr.table(),
            idtr: self.idtr.table(),
            cr0: self.cr0,
            cr2: self.cr2,
            cr3: self.cr3,
            cr4: self.cr4,
            cr8: self.cr8,
            efer: self.efer,
            kgs: self.kgs,
            cpl: self.cpl,
        }
    }
}
