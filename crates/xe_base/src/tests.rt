//! What no clause says: that the rules and the numbers are the ones that were meant.

use crate::{
    Access, Answer, BadState, CodeSize, Cpu, Fault, GENERAL_PROTECTION, Made, Mode, Seg, SegName,
    Space, Word,
};
use std::test::Fail;

#[test]
fn checks_each_rule(rt: HostRuntime) -> Result<(), Fail> {
    let start = Cpu::reset();
    assert_eq!(rt; start.check(), Ok(()));
    assert_eq!(rt;
        Cpu { rflags: 0, ..start }.check(),
        Err(BadState { rule: 1 })
    );
    assert_eq!(rt; Cpu { cr0: 0, ..start }.check(), Err(BadState { rule: 2 }));
    assert_eq!(rt;
        Cpu {
            cr4: 1 << 12,
            ..start
        }
        .check(),
        Err(BadState { rule: 3 })
    );
    assert_eq!(rt;
        Cpu {
            efer: 0x400,
            ..start
        }
        .check(),
        Err(BadState { rule: 4 })
    );
    assert_eq!(rt;
        Cpu {
            cr3: 1 << 40,
            ..start
        }
        .check(),
        Err(BadState { rule: 5 })
    );
    let far = Seg {
        base: 1 << 32,
        ..start.ds
    };
    assert_eq!(rt; Cpu { ds: far, ..start }.check(), Err(BadState { rule: 6 }));
    assert_eq!(rt; Cpu { cpl: 3, ..start }.check(), Err(BadState { rule: 7 }));
    assert_eq!(rt;
        Cpu {
            rip: 1 << 32,
            ..start
        }
        .check(),
        Err(BadState { rule: 9 })
    );
    let wide = Seg {
        attr: 0x69B,
        ..start.cs
    };
    assert_eq!(rt;
        Cpu {
            cr0: 0x8000_0011,
            cr4: 0x20,
            efer: 0x500,
            cs: wide,
            ..start
        }
        .check(),
        Err(BadState { rule: 8 })
    );
    assert_eq!(rt; Cpu { cr0: 0x11, ..start }.check(), Ok(()));
    Ok(())
}

#[test]
fn tells_the_mode(rt: HostRuntime) -> Result<(), Fail> {
    let start = Cpu::reset();
    let code = Seg {
        attr: 0x29B,
        ..start.cs
    };
    let long = Cpu {
        cr0: 0x8000_0011,
        cr4: 0x20,
        efer: 0x500,
        cs: code,
        ..start
    };
    assert_eq!(rt;
        (start.mode(), start.code_size()),
        (Mode::Real, CodeSize::B16)
    );
    assert_eq!(rt;
        (long.mode(), long.code_size()),
        (Mode::Long, CodeSize::B64)
    );
    let compat = Cpu {
        cs: Seg {
            attr: 0xC9B,
            ..code
        },
        ..long
    };
    assert_eq!(rt;
        (compat.mode(), compat.code_size()),
        (Mode::Compat, CodeSize::B32)
    );
    assert_eq!(rt;
        Cpu {
            rip: 0xFFFF_FFFF,
            ..start
        }
        .next_rip(2),
        1
    );
    assert_eq!(rt; start.segment(SegName::Cs).attr, 0x9B);
    assert_eq!(rt; SegName::Gs.number(), 5);
    assert!(rt; start.is_canonical(0xFFFF_8000_0000_0000) & !start.is_canonical(0x8000_0000_0000));
    assert!(rt; start.is_base(0x7FFF_FFFF_FFFF) & !start.is_base(1 << 63));
    assert_eq!(rt; start.address_bits(), 32);
    assert!(rt; !start.is_long());
    let mut written = start;
    written.set_register(2, false, 0, 0x1_2345);
    written.advance(2);
    assert_eq!(rt; written.gpr[0], 0x2345);
    assert_eq!(rt; written.rip, 2);
    assert_eq!(rt;
        Fault::with_code(Mode::Real, GENERAL_PROTECTION, 8),
        Fault::plain(13)
    );
    assert_eq!(rt;
        Fault::with_code(Mode::Long, GENERAL_PROTECTION, 8).code,
        Some(8)
    );
    Ok(())
}

#[test]
fn cuts_words(rt: HostRuntime) -> Result<(), Fail> {
    let byte: Word<8> = Word::new(0x1FF);
    assert_eq!(rt; byte.get(), 0xFF);
    assert_eq!(rt; byte.signed(), -1);
    assert_eq!(rt; Made::default().answer.number(), 0);
    assert_eq!(rt; Answer::No.number(), 0);
    assert_eq!(rt; Access::default().space, Space::Mem);
    Ok(())
}
