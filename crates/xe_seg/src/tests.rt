//! What no clause says: that the definitions are the ones that were meant.

use crate::attributes::{is_conforming, is_expand_down};
use crate::laws::{
    accesses_pass_by_each_byte, attributes_are_fields, canonical_addresses_are_the_two_ends,
    failed_accesses_have_code_zero, loads_keep_the_rules_of_segments,
    loads_pass_where_the_segment_serves, targets_pass_where_code_can_go_on,
};
use crate::{Descriptor, check_access, check_load, check_target, linear_address};
use std::test::Fail;
use xe_base::{Cpu, Fault, Mode, Seg, SegName};

fn data(base: u64, limit: u32, attr: u16) -> Seg {
    Seg {
        sel: 0x10,
        base,
        limit,
        attr,
    }
}

fn fault(vector: u8, code: u32) -> Fault {
    Fault::with_code(Mode::Protected, vector, code)
}

fn protected() -> Cpu {
    Cpu {
        cr0: 0x11,
        ..Cpu::reset()
    }
}

fn long() -> Cpu {
    Cpu {
        cr0: 0x8000_0011,
        cr4: 0x20,
        efer: 0x500,
        cs: data(0, 0, 0x29B),
        fs: data(0xFFFF_8000_0000_0000, 0, 0),
        ..Cpu::reset()
    }
}

#[test]
fn judges_limits(rt: HostRuntime) -> Result<(), Fail> {
    let real = Cpu::reset();
    assert_eq!(rt;
        check_access(&real, SegName::Ds, 0xFFFE, 2, true),
        Ok(0xFFFE)
    );
    assert_eq!(rt;
        check_access(&real, SegName::Ss, 0xFFFE, 4, true),
        Err(Fault::plain(12))
    );
    // data that grows downwards: above FFF, and at most FFFF where DB is 0
    let down = Cpu {
        ds: data(0x1000, 0xFFF, 0x97),
        ..protected()
    };
    assert_eq!(rt;
        check_access(&down, SegName::Ds, 0xFFF, 1, false),
        Err(fault(13, 0))
    );
    assert_eq!(rt;
        check_access(&down, SegName::Ds, 0x1000, 1, false),
        Ok(0x2000)
    );
    assert_eq!(rt;
        check_access(&down, SegName::Ds, 0xFFFF, 2, false),
        Err(fault(13, 0))
    );
    let wide = Cpu {
        ds: data(0x1000, 0xFFF, 0x497),
        ..protected()
    };
    assert_eq!(rt;
        check_access(&wide, SegName::Ds, 0xFFFF_FFFF, 1, true),
        Ok(0xFFF)
    );
    Ok(())
}

#[test]
fn judges_rights(rt: HostRuntime) -> Result<(), Fail> {
    let start = protected();
    let read_only = Cpu {
        ss: data(0, 0xFFFF, 0x91),
        ..start
    };
    assert_eq!(rt;
        check_access(&read_only, SegName::Ss, 0, 1, true),
        Err(fault(13, 0))
    );
    assert_eq!(rt; check_access(&read_only, SegName::Ss, 0, 1, false), Ok(0));
    let absent = Cpu {
        ss: data(0, 0xFFFF, 0x13),
        ..start
    };
    assert_eq!(rt;
        check_access(&absent, SegName::Ss, 0, 1, false),
        Err(fault(12, 0))
    );
    let execute_only = Cpu {
        cs: data(0, 0xFFFF, 0x99),
        ..start
    };
    assert_eq!(rt;
        check_access(&execute_only, SegName::Cs, 0, 1, false),
        Err(fault(13, 0))
    );
    assert!(rt; is_conforming(0x9C) & !is_expand_down(0x9C));
    Ok(())
}

#[test]
fn judges_canonical_addresses(rt: HostRuntime) -> Result<(), Fail> {
    let cpu = long();
    assert_eq!(rt; linear_address(&cpu, SegName::Cs, 5), 5);
    assert_eq!(rt; linear_address(&cpu, SegName::Fs, 1 << 47), 0);
    assert_eq!(rt;
        check_access(&cpu, SegName::Ds, 0x7FFF_FFFF_FFFF, 1, true),
        Ok(0x7FFF_FFFF_FFFF)
    );
    assert_eq!(rt;
        check_access(&cpu, SegName::Ss, 0x7FFF_FFFF_FFFF, 2, true),
        Err(fault(12, 0))
    );
    assert_eq!(rt;
        check_access(&cpu, SegName::Ds, 0xFFFF_FFFF_FFFF_FFFF, 2, true),
        Ok(0xFFFF_FFFF_FFFF_FFFF)
    );
    assert_eq!(rt; check_target(&cpu, &cpu.cs, 1 << 47), Err(fault(13, 0)));
    assert_eq!(rt;
        check_target(&cpu, &data(0, 0xFF, 0x9B), 0x100),
        Err(fault(13, 0))
    );
    assert_eq!(rt; check_target(&cpu, &data(0, 0xFF, 0x9B), 0xFF), Ok(()));
    Ok(())
}

#[test]
fn loads_segments(rt: HostRuntime) -> Result<(), Fail> {
    // base 12345678, 2 pages, DB, level 3, writable data that wasn't accessed yet
    let desc = Descriptor {
        raw: 0x12C0_F234_5678_0001,
    };
    assert_eq!(rt;
        (desc.base(), desc.limit(), desc.attr()),
        (0x1234_5678, 0x1FFF, 0xCF2)
    );
    assert_eq!(rt; (desc.kind(), desc.dpl(), desc.s()), (2, 3, true));
    assert!(rt; desc.present() & desc.db() & desc.g() & !desc.l());
    let start = protected();
    assert_eq!(rt;
        check_load(&start, SegName::Fs, 0x2B, desc),
        Ok(Seg {
            sel: 0x2B,
            base: 0x1234_5678,
            limit: 0x1FFF,
            attr: 0xCF3
        })
    );
    assert_eq!(rt;
        check_load(&start, SegName::Ss, 0x2B, desc),
        Err(fault(13, 0x28))
    );
    assert_eq!(rt;
        check_load(&start, SegName::Gs, 3, desc).map(|s| s.sel),
        Ok(3)
    );
    assert_eq!(rt;
        check_load(&long(), SegName::Ss, 0, desc).map(|s| s.attr),
        Ok(0)
    );
    assert_eq!(rt;
        check_load(&Cpu::reset(), SegName::Es, 0x1234, desc).map(|s| s.base),
        Ok(0x1_2340)
    );
    Ok(())
}

#[test]
fn laws_are_called(rt: HostRuntime) -> Result<(), Fail> {
    accesses_pass_by_each_byte();
    failed_accesses_have_code_zero();
    canonical_addresses_are_the_two_ends();
    loads_keep_the_rules_of_segments();
    loads_pass_where_the_segment_serves();
    targets_pass_where_code_can_go_on();
    attributes_are_fields();
    Ok(())
}
