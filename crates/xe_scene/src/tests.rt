//! Worked texts, and each public call once.

use super::*;
use arrayvec::ArrayVec;
use std::test::Fail;
use xe_base::{Access, Answer, Space};
use xe_ctx::{Bus, Reply};

const PORT_READ: &[u8] =
    b"x86emu 1\n# reads a port\nram 0 10000\n\npoke 7c00 b84100e460f4\nreg rip 7c00\ndev port r 60 5a\nrun 10";

/// The line and the reason for which a text is refused, or 0 and 0.
fn refusal(rt: &HostRuntime, text: &[u8]) -> (u32, u8) {
    match read_scene(rt.alloc(), text) {
        Err(SceneFault::Line { number, reason }) => (number, reason),
        _ => (0, 0),
    }
}

#[test]
fn reads_a_worked_text(rt: HostRuntime) -> Result<(), Fail> {
    let scene = read_scene(rt.alloc(), PORT_READ).ok().ok_or("refused")?;
    assert_eq!(rt; scene.regions.len(), 1);
    assert_eq!(rt; scene.commands.len(), 4);
    assert!(rt; matches!(scene.commands.get(1), Command::Reg(RegName::Rip, 0x7c00)));
    assert!(rt; matches!(scene.commands.get(3), Command::Run(10)));
    Ok(())
}

#[test]
fn reads_waits_failures_and_calls(rt: HostRuntime) -> Result<(), Fail> {
    let text = b"x86emu 1\nram 0 1000\ndev msr r 10 wait fail no 41\ncall\nrun 1\ncall\n";
    let scene = read_scene(rt.alloc(), text).ok().ok_or("refused")?;
    assert_eq!(rt; scene.commands.len(), 4);
    let Command::Dev(Space::Msr, Dir::Read, 0x10, items) = scene.commands.get(0) else {
        return Err(Fail::from("no device"));
    };
    assert_eq!(rt;
        items.as_slice(),
        [Item::Wait, Item::Fail, Item::No, Item::Value(0x41)].as_slice()
    );
    assert!(rt; matches!(scene.commands.get(1), Command::Call));
    assert!(rt; matches!(scene.commands.get(3), Command::Call));
    Ok(())
}

/// The text without its last newline.
fn without_newline(text: &[u8]) -> &[u8] {
    match text {
        [front @ .., b'\n'] => front,
        _ => text,
    }
}

/// Each reason, by a text that is refused for it.
const REFUSED: [(&[u8], u32, u8); 19] = [
    (b"x86emu 2\n", 1, 1),
    (b"x86emu 1\nshow\t\n", 2, 2),
    (
        b"x86emu 1\n#########################################################################################################################################################################################################\n",
        2,
        3,
    ),
    (b"x86emu 1\n# a  comment\nrun  1\n", 3, 4),
    (b"x86emu 1\n\nstop\n", 3, 5),
    (b"x86emu 1\ncall 1\n", 2, 6),
    (b"x86emu 1\nreg ip x\n", 2, 7),
    (b"x86emu 1\ndev port r 60 no\n", 2, 7),
    (b"x86emu 1\nseg ds 10000 0 ffff 93\n", 2, 8),
    (b"x86emu 1\nram 0 1000\npoke 0 1\n", 3, 9),
    (b"x86emu 1\nram 0 1000\nram 800 1000\n", 3, 10),
    (b"x86emu 1\nram 0 1001000\n", 2, 11),
    (b"x86emu 1\nshow\nram x 0\n", 3, 12),
    (b"x86emu 1\nrun 1000000\nrun 1\n", 3, 13),
    (b"x86emu 1\nbatch no x\n", 2, 6),
    (b"x86emu 1\nbatch 1001\n", 2, 8),
    (b"x86emu 1\nicpt vmrun\n", 2, 7),
    (b"x86emu 1\nioport 61 60\n", 2, 8),
    (b"x86emu 1\nicptmsr r 100000000\n", 2, 8),
];

#[test]
fn refuses_for_each_reason(rt: HostRuntime) {
    for (text, number, reason) in REFUSED {
        assert_eq!(rt; refusal(&rt, text), (number, reason), "reason {reason}");
        assert_eq!(rt;
            refusal(&rt, without_newline(text)),
            (number, reason),
            "no last newline, reason {reason}"
        );
    }
}

#[test]
fn refuses_a_long_text(rt: HostRuntime) -> Result<(), Fail> {
    let text = vec![in rt.alloc(); b'\n'; 1_048_577]?;
    assert_eq!(rt; refusal(&rt, &text), (1_048_577, 14));
    assert_eq!(rt; refusal(&rt, &text[1..]), (1, 1));
    assert_eq!(rt; refusal(&rt, b""), (1, 1));
    Ok(())
}

ghost use Rattle.xe_ctx.specs.Bus.{HasRoom};

/// Reads one byte of port 60h.
fn read_port<B: Bus>(bus: &mut B) -> Reply
    requires { HasRoom (B.sight bus.old) 1 }
{
    bus.access(Access {
        space: Space::Port,
        write: false,
        address: 0x60,
        size: 1,
        value: 0,
    })
}

#[test]
fn follows_the_script(rt: HostRuntime) -> Result<(), Fail> {
    let scene = read_scene(rt.alloc(), PORT_READ).ok().ok_or("refused")?;
    let mut bus = ScriptBus::for_scene(rt.alloc(), &scene)
        .ok()
        .ok_or("no memory")?;
    bus.begin();
    assert_eq!(rt;
        read_port(&mut bus),
        Reply::Ready(Answer::Val(0xff)),
        "an empty queue"
    );
    assert_eq!(rt; bus.log().len(), 1);
    Ok(())
}

#[test]
fn feeds_a_queue(rt: HostRuntime) -> Result<(), Fail> {
    let mut items = ArrayVec::new();
    items.push(Item::Wait);
    items.push(Item::Fail);
    items.push(Item::Value(0x15a));
    let mut list = Vec::new(rt.alloc());
    list.push(Command::Dev(Space::Port, Dir::Read, 0x60, items))?;
    let scene = Scene {
        regions: ArrayVec::new(),
        commands: Commands::new(list),
    };
    let mut bus = ScriptBus::for_scene(rt.alloc(), &scene)
        .ok()
        .ok_or("no memory")?;
    bus.feed(
        Space::Port,
        false,
        0x60,
        &[Item::Wait, Item::Fail, Item::Value(0x15a)],
    );
    for (reply, logged) in [
        (Reply::NotYet, 0),
        (Reply::Failed, 0),
        (Reply::Ready(Answer::Val(0x5a)), 1),
    ] {
        bus.begin();
        assert_eq!(rt; read_port(&mut bus), reply);
        assert_eq!(rt; bus.log().len(), logged);
    }
    Ok(())
}
