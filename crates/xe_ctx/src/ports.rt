//! Which ports a program may use (SDM volume 1, "I/O Permission Bit Map").
#![tactic(auto, using(crate::proofs::Trees::row_rules))]

ghost use Rattle.std.specs.Prelude.{◌≡◌, ◌<◌, ◌≤◌, ◌^◌};
ghost use Rattle.xe_ctx.specs.Contract.{HasLeft, RunsWithin, cpu_of};
ghost use Rattle.xe_ctx.specs.Ports.{asks_bitmap, has_bitmap, are_clear, tss_word, by_bitmap, port_allowed};

use crate::bus::Bus;
use crate::ctx::Ctx;
use crate::privilege::{iopl, is_real, or_protection};
use crate::stop::Stop;
use xe_base::{Cpu, Seg};
use xe_icpt::Intercepts;

/// Whether the bit map is asked: outside real mode, above the I/O privilege level.
fn asks_bitmap(cpu: &Cpu) -> bool
    ensures { result ≡ asks_bitmap cpu.now }
{
    !is_real(cpu) && iopl(cpu) < cpu.cpl
}

/// Whether TR holds a TSS that has a bit map: present, of type 9 or 11, and its limit holds the map's
/// offset.
fn has_bitmap(tr: &Seg) -> bool
    ensures { result ≡ has_bitmap tr.now }
{
    let kind = tr.attr % 16;
    tr.attr >> 7 & 1 == 1 && (kind == 9 || kind == 11) && 0x67 <= tr.limit
}

/// Whether none of the bits of an access is set, from that of its port on.
fn are_clear(bits: u64, port: u16, n: u32) -> bool
    requires { n ≤ 4 }
    ensures { result ≡ are_clear bits port n }
{
    let mask = match n {
        0 => 1,
        1 => 2,
        2 => 4,
        3 => 8,
        _ => 16,
    };
    (bits >> (port % 8)) % mask == 0
}

/// Two bytes of the TSS.
fn tss_word<B: Bus, I: Intercepts>(ctx: &mut Ctx<B, I>, at: u64) -> Result<u64, Stop>
    requires { HasLeft B.sight ctx.old 2 10 }
    ensures { RunsWithin B.sight I.hits (tss_word (cpu_of ctx.old) at) ctx.old result ctx.new 2 10 }
{
    let la = ctx.cpu().tr.base.wrapping_add(at);
    let value = ctx.load_sys(la, 2)?;
    Ok(value as u64)
}

/// The bit map is asked.
#[tactic(auto, using(crate::proofs::Trees::row_rules), unfolding(crate::specs::Ports::by_bitmap))]
fn by_bitmap<B: Bus, I: Intercepts>(ctx: &mut Ctx<B, I>, port: u16, n: u32) -> Result<(), Stop>
    requires ready { HasLeft B.sight ctx.old 4 20 }
    requires size { n ≤ 4 }
    ensures { RunsWithin B.sight I.hits (by_bitmap (cpu_of ctx.old) port n) ctx.old result ctx.new 4 20 }
{
    let has_one = has_bitmap(&ctx.cpu().tr);
    or_protection(ctx, has_one)?;
    let map = tss_word(ctx, 0x66)?;
    let at = map % (1 << 16) + (port / 8) as u64;
    let is_inside = at + 1 <= ctx.cpu().tr.limit as u64;
    or_protection(ctx, is_inside)?;
    let bits = tss_word(ctx, at)?;
    or_protection(ctx, are_clear(bits, port, n))
}

impl<'a, B: Bus, I: Intercepts> Ctx<'a, B, I> {
    /// Whether the program may use the ports of an access, `n` of them from this one on: in real mode
    /// and up to IOPL always; else by the bit map of the TSS, of which it takes two system loads of two
    /// bytes. Where it may not, it is #GP(0).
    #[tactic(auto, using(crate::proofs::Trees::row_rules), unfolding(crate::specs::Ports::port_allowed))]
    pub fn port_allowed(&mut self, port: u16, n: u32) -> Result<(), Stop>
        requires ready { HasLeft B.sight self.old 4 20 }
        requires size { n ≤ 4 }
        ensures { RunsWithin B.sight I.hits (port_allowed (cpu_of self.old) port n) self.old result self.new 4 20 }
    {
        if asks_bitmap(self.cpu()) {
            by_bitmap(self, port, n)
        } else {
            Ok(())
        }
    }
}
