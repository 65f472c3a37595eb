//! The machine and its devices, once each.

use crate::{Quiet, machine};
use std::process::Abort;
use std::test::Fail;
use xe_base::{Access, Answer, Cpu, Space};
use xe_ctx::{Bus, Reply};

#[test]
fn holds_zeros(rt: HostRuntime) {
    let m = machine(rt.alloc(), Cpu::reset()).expect(&rt, "memory");
    let mut last = [1; 1];
    assert!(rt; m.peek(0xFFFF, &mut last).is_ok());
    assert!(rt; last == [0]);
    assert!(rt; m.peek(0x1_0000, &mut last).is_err());
    let bad = Cpu {
        cr0: 0,
        ..Cpu::reset()
    };
    assert!(rt; machine(rt.alloc(), bad).is_none());
    let read = Access {
        space: Space::Port,
        write: false,
        address: 0x60,
        size: 1,
        value: 0,
    };
    assert!(rt; Quiet.access(read) == Reply::Ready(Answer::Val(0)));
}
