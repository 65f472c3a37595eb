//! Decimal corrections of AX.
#![tactic(auto, using(xe_ctx::proofs::Trees::row_rules))]

ghost use Rattle.std.specs.Prelude.{◌≡◌};
ghost use Rattle.xe_ctx.specs.Contract.{ℕ, IsReady, Finishes, cpu_of};
ghost use Rattle.xe_arith.specs.Decimal.{divides, decimal_row};

use xe_base::access::DIVIDE_ERROR;
use xe_base::{Cpu, Fault};
use xe_ctx::operand::{AX, done, read_register, write_register};
use xe_ctx::{Bus, Ctx, End, Stop};
use xe_flags::{BcdOp, bcd};
use xe_icpt::Intercepts;
use xe_opmap::Insn;

/// Whether the operation divides by its immediate.
fn divides(op: BcdOp) -> bool
    ensures { result ≡ divides op }
{
    match op {
        BcdOp::Aam => true,
        BcdOp::Daa | BcdOp::Das | BcdOp::Aaa | BcdOp::Aas | BcdOp::Aad => false,
    }
}

/// DAA, DAS, AAA, AAS, AAM and AAD (SDM volume 2).
pub fn decimal<B: Bus, I: Intercepts>(
    op: BcdOp,
    insn: &Insn,
    ctx: &mut Ctx<B, I>,
    cpu: &mut Cpu,
) -> Result<End, Stop>
    requires { IsReady B.sight insn.now ctx.old cpu.old 0 0 }
    ensures { Finishes B.sight I.hits (decimal_row op insn.now (cpu_of ctx.old)) ctx.old result cpu.new ctx.new }
{
    let ax = (read_register(insn, cpu, 2, AX) % (1 << 16)) as u16;
    let imm = (insn.imm % (1 << 8)) as u8;
    if divides(op) && imm == 0 {
        return Err(Stop::Fault(Fault::plain(DIVIDE_ERROR)));
    }
    match bcd(op, ax, imm, cpu.rflags) {
        Err(_) => Err(Stop::Fault(Fault::plain(DIVIDE_ERROR))),
        Ok((corrected, flags)) => {
            cpu.rflags = flags;
            write_register(insn, cpu, 2, AX, corrected as u64);
            Ok(done(insn, cpu))
        }
    }
}
