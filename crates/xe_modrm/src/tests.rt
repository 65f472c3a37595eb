//! What no clause says: each public call once on its happy path.

use crate::{Part, operand, prefixes};
use std::test::Fail;
use xe_base::{CodeSize, SegName};

#[test]
fn reads_prefixes_and_an_operand(rt: HostRuntime) -> Result<(), Fail> {
    // F2 F3 64 66 4A before a NOP, and an operand [r9 + 4 * rax - 2] after the REX byte 49.
    let Part::Got(pre, used) = prefixes(CodeSize::B64, &[0xF2, 0xF3, 0x64, 0x66, 0x4A, 0x90]) else {
        return Err(Fail::from("no prefixes"));
    };
    assert_eq!(rt; used, 5);
    assert_eq!(rt; pre.rep, 0xF3);
    assert_eq!(rt; pre.seg, Some(SegName::Fs));
    assert_eq!(rt; pre.rex, Some(0x4A));
    let Part::Got(pre, _) = prefixes(CodeSize::B64, &[0x49, 0x83]) else {
        return Err(Fail::from("no REX"));
    };
    let Part::Got(modrm, used) = operand(CodeSize::B64, &pre, &[0x44, 0x81, 0xFE, 0xFF]) else {
        return Err(Fail::from("no operand"));
    };
    assert_eq!(rt; used, 3);
    assert_eq!(rt; modrm.base, Some(9));
    assert_eq!(rt; modrm.index, Some(0));
    assert_eq!(rt; modrm.scale, 4);
    assert_eq!(rt; modrm.disp, -2);
    Ok(())
}
