//! What no clause says: each public call once on its happy path.

use crate::{Decoded, Known, Row, decode, row_name};
use std::test::Fail;
use xe_base::CodeSize;

#[test]
fn answers_by_hand(rt: HostRuntime) -> Result<(), Fail> {
    // LOCK MOV, MOVAPS, and fifteen prefixes.
    assert_eq!(rt;
        decode(CodeSize::B16, &[0xF0, 0x89, 0x07]),
        Decoded::Invalid(3)
    );
    assert_eq!(rt;
        decode(CodeSize::B16, &[0x0F, 0x28, 0xC1]),
        Decoded::Outside
    );
    assert_eq!(rt; decode(CodeSize::B16, &[0x66; 15]), Decoded::More);
    assert_eq!(rt;
        decode(CodeSize::B32, &[0x0F, 0x01, 0xF8]),
        Decoded::Invalid(3)
    );
    Ok(())
}

#[test]
fn decodes_an_instruction(rt: HostRuntime) -> Result<(), Fail> {
    // add qword [r9 + 4 * rax - 2], -1
    let decoded = decode(CodeSize::B64, &[0x49, 0x83, 0x44, 0x81, 0xFE, 0xFF]);
    let Decoded::Insn(insn) = decoded else {
        return Err(Fail::from("no instruction"));
    };
    assert_eq!(rt; insn.row, Row::Add);
    assert_eq!(rt; row_name(insn.row), "add");
    assert_eq!(rt; insn.len, 6);
    assert_eq!(rt; insn.imm, u64::MAX);
    Ok(())
}

/// What is known of bytes.
fn find(known: &Known, size: CodeSize, rip: u64, bytes: &[u8; 15]) -> Option<Row> {
    known.find(size, rip, bytes).map(|insn| insn.row)
}

/// Decodes bytes, and keeps the instruction.
fn keep(known: &mut Known, size: CodeSize, rip: u64, bytes: &[u8; 15]) {
    if let Decoded::Insn(insn) = decode(size, bytes) {
        known.keep(size, rip, bytes, &insn);
    }
}

#[test]
fn finds_what_it_keeps(rt: HostRuntime) {
    let mut known = Known::new();
    // ADD AX, 1234h and NOPs.
    let mut bytes = [0x90; 15];
    bytes[0] = 0x05;
    bytes[1] = 0x34;
    bytes[2] = 0x12;
    assert!(rt; find(&known, CodeSize::B16, 0x100, &bytes).is_none());
    keep(&mut known, CodeSize::B16, 0x100, &bytes);
    assert!(rt; find(&known, CodeSize::B16, 0x100, &bytes) == Some(Row::Add));
    // Other bytes behind it don't matter; its own do, and so does the size of the code.
    bytes[3] = 0xF4;
    assert!(rt; find(&known, CodeSize::B16, 0x300, &bytes) == Some(Row::Add));
    assert!(rt; find(&known, CodeSize::B32, 0x100, &bytes).is_none());
    assert!(rt; find(&known, CodeSize::B16, 0x101, &bytes).is_none());
    bytes[2] = 0x13;
    assert!(rt; find(&known, CodeSize::B16, 0x100, &bytes).is_none());
    // MOV qword [RBX + 12345678h], 1 has 11 bytes; the address of the place is taken by it.
    let mut long = [
        0x48, 0xC7, 0x83, 0x78, 0x56, 0x34, 0x12, 1, 0, 0, 0, 0x90, 0x90, 0x90, 0x90,
    ];
    keep(&mut known, CodeSize::B64, 0x500, &long);
    assert!(rt; find(&known, CodeSize::B64, 0x100, &long) == Some(Row::Mov));
    bytes[2] = 0x12;
    assert!(rt; find(&known, CodeSize::B16, 0x100, &bytes).is_none());
    long[10] = 1;
    assert!(rt; find(&known, CodeSize::B64, 0x100, &long).is_none());
}
