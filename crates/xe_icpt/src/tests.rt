//! The table by its numbers, names, and a list of pairs that is full.

ghost use Rattle.xe_icpt.specs.Points.{IsControl, IsPoint};

use crate::{CrKind, Exit, Intercepts, NoHits, Point, SvmName, SvmSet, TableName};
use bitflags::Flags;
use std::process::Abort;

/// `in al, imm` of port 60h in 16-bit code, at offset 100h.
const PORT_READ: Point = Point::Io {
    port: 0x60,
    size: 1,
    input: true,
    string: false,
    rep: false,
    imm: true,
    adsize: 2,
    seg: 0,
    next: 0x102,
};

/// `rep outsd` from FS to port FFFEh in 64-bit code.
const PORT_WRITES: Point = Point::Io {
    port: 0xfffe,
    size: 4,
    input: false,
    string: true,
    rep: true,
    imm: false,
    adsize: 8,
    seg: 4,
    next: 0x1002,
};

/// Checks that a point exits with this code exactly where its name is set.
fn exits(rt: &impl Abort, name: &str, p: Point, code: u32)
    requires { IsPoint p }
{
    let Some(name) = SvmName::from_name(name) else {
        panic!(rt; "{name} is no name")
    };
    let exit = Exit {
        code,
        info1: 0,
        info2: 0,
    };
    let mut set = SvmSet::new();
    set.set(name);
    assert!(rt; set.check(&p) == Some(exit));
    set.clear(name);
    assert!(rt; set.check(&p).is_none());
}

#[test]
fn control_registers(rt: HostRuntime) {
    exits(&rt, "read_cr0", Point::CrRead { n: 0, reg: 3 }, 0x00);
    exits(&rt, "read_cr2", Point::CrRead { n: 2, reg: 3 }, 0x02);
    exits(&rt, "read_cr3", Point::CrRead { n: 3, reg: 3 }, 0x03);
    exits(&rt, "read_cr4", Point::CrRead { n: 4, reg: 3 }, 0x04);
    exits(&rt, "read_cr8", Point::CrRead { n: 8, reg: 3 }, 0x08);
    exits(&rt, "write_cr0", write(0), 0x10);
    exits(&rt, "write_cr2", write(2), 0x12);
    exits(&rt, "write_cr3", write(3), 0x13);
    exits(&rt, "write_cr4", write(4), 0x14);
    exits(&rt, "write_cr8", write(8), 0x18);
    exits(&rt, "cr0_sel", Point::Cr0Sel, 0x65);
}

/// MOV to a control register.
fn write(n: u8) -> Point
    requires { IsControl n }
    ensures { IsPoint result }
{
    Point::CrWrite {
        n,
        reg: 1,
        kind: CrKind::Mov,
        value: 0x8000_0011,
        mem: false,
    }
}

#[test]
fn tables(rt: HostRuntime) {
    exits(
        &rt,
        "read_idtr",
        Point::TableRead { t: TableName::Idtr },
        0x66,
    );
    exits(
        &rt,
        "read_gdtr",
        Point::TableRead { t: TableName::Gdtr },
        0x67,
    );
    exits(
        &rt,
        "read_ldtr",
        Point::TableRead { t: TableName::Ldtr },
        0x68,
    );
    exits(&rt, "read_tr", Point::TableRead { t: TableName::Tr }, 0x69);
    exits(
        &rt,
        "write_idtr",
        Point::TableWrite { t: TableName::Idtr },
        0x6a,
    );
    exits(
        &rt,
        "write_gdtr",
        Point::TableWrite { t: TableName::Gdtr },
        0x6b,
    );
    exits(
        &rt,
        "write_ldtr",
        Point::TableWrite { t: TableName::Ldtr },
        0x6c,
    );
    exits(
        &rt,
        "write_tr",
        Point::TableWrite { t: TableName::Tr },
        0x6d,
    );
}

#[test]
fn other_instructions(rt: HostRuntime) {
    exits(&rt, "rdtsc", Point::Rdtsc, 0x6e);
    exits(&rt, "pushf", Point::Pushf, 0x70);
    exits(&rt, "popf", Point::Popf, 0x71);
    exits(&rt, "cpuid", Point::Cpuid, 0x72);
    exits(&rt, "iret", Point::Iret, 0x74);
    exits(&rt, "swint", Point::Swint { vector: 0x80 }, 0x75);
    exits(&rt, "invd", Point::Invd, 0x76);
    exits(&rt, "pause", Point::Pause, 0x77);
    exits(&rt, "hlt", Point::Hlt, 0x78);
    exits(&rt, "invlpg", Point::Invlpg { la: 0x1000 }, 0x79);
    exits(&rt, "wbinvd", Point::Wbinvd, 0x89);
}

#[test]
fn no_names(rt: HostRuntime) {
    for name in ["", "read_cr1", "RDTSC", "rdtsc ", "io", "read_cr00"] {
        assert!(rt; SvmName::from_name(name).is_none());
    }
    assert!(rt; NoHits.check(&PORT_READ).is_none());
}

#[test]
fn ports(rt: HostRuntime) {
    let mut set = SvmSet::new();
    set.ports(0x60, 0x60);
    set.ports(1, 1);
    assert!(rt; set.check(&PORT_READ).is_none());
    assert!(rt; SvmName::from_name("ioio") == Some(SvmName::IOIO));
    set.set(SvmName::IOIO);
    let exit = Exit {
        code: 0x7b,
        info1: 0x60_0091,
        info2: 0x102,
    };
    assert!(rt; set.check(&PORT_READ) == Some(exit));
    let exit = Exit {
        code: 0x7b,
        info1: 0xfffe_124c,
        info2: 0x1002,
    };
    assert!(rt; set.check(&PORT_WRITES) == Some(exit));

    let mut set = SvmSet::new();
    set.set(SvmName::IOIO);
    set.ports(2, 0xfffd);
    assert!(rt; set.check(&PORT_WRITES).is_none());
    assert!(rt; set.check(&PORT_READ).is_some());
}

#[test]
fn pairs(rt: HostRuntime) {
    let mut set = SvmSet::new();
    assert!(rt; SvmName::from_name("msr") == Some(SvmName::MSR));
    set.set(SvmName::MSR);
    for k in 0..64u32 {
        assert!(rt; set.msr(0xc000_0080 + k / 2, k % 2 == 0));
    }
    assert!(rt; !set.msr(0x10, false));
    for k in 0..64u32 {
        assert!(rt; set.msr(0xc000_0080 + k / 2, k % 2 == 0));
    }
    let exit = Exit {
        code: 0x7c,
        info1: 1,
        info2: 0,
    };
    let listed = Point::Msr {
        number: 0xc000_0080,
        write: true,
    };
    assert!(rt; set.check(&listed) == Some(exit));
    let other = Point::Msr {
        number: 0x10,
        write: false,
    };
    assert!(rt; set.check(&other).is_none());
}
