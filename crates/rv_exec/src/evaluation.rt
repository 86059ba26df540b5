ghost use Rattle.std.specs.Prelude.{◌≡◌, ◌%◌};
ghost use Rattle.rv_exec.specs.Eval.{misalignment, computed, raised, redirected, jumped, branched};
ghost use Rattle.rv_exec.specs.Eval.{loaded, stored, eval_of};

use crate::alu::alu;
use crate::branch::is_taken;
use crate::muldiv::muldiv;
use crate::outcome::{Outcome, Reach};
use crate::transfer::{cut, extends_sign, width_of_load, width_of_store};
use fsim_base::{Cause, Width};
use rv_decode::Insn;

/// What the instruction at `addr` does, where `a` and `b` are the values of `rs1` and `rs2`.
///
/// It has all that needs neither memory nor CSRs: loads and CSR instructions have value 0 here, and
/// MRET goes on to the next word.
#[tactic(auto, unfolding(crate::specs::Eval::eval_of))]
#[inline(always)]
pub fn eval(insn: Insn, addr: u32, a: u32, b: u32) -> Outcome
    ensures outcome { result ≡ eval_of insn addr a b }
    ensures aligned { addr % 4 ≡ 0 → result.next % 4 ≡ 0 }
{
    match insn {
        Insn::Lui { imm, .. } => compute(addr, imm),
        Insn::Auipc { imm, .. } => compute(addr, addr.wrapping_add(imm)),
        Insn::Jal { imm, .. } => jump(addr, addr.wrapping_add(imm)),
        Insn::Jalr { imm, .. } => jump(addr, a.wrapping_add(imm) & !1),
        Insn::Branch { kind, imm, .. } => branch(
            addr,
            is_taken(kind, a, b),
            addr.wrapping_add(imm),
        ),
        Insn::Load { kind, imm, .. } => load(
            addr,
            a.wrapping_add(imm),
            width_of_load(kind),
            extends_sign(kind),
        ),
        Insn::Store { kind, imm, .. } => store(addr, a.wrapping_add(imm), width_of_store(kind), b),
        Insn::OpImm { kind, alt, imm, .. } => compute(addr, alu(kind, alt, a, imm)),
        Insn::Op { kind, alt, .. } => compute(addr, alu(kind, alt, a, b)),
        Insn::MulDiv { kind, .. } => compute(addr, muldiv(kind, a, b)),
        Insn::Ecall => raise(addr, Cause::EnvironmentCall),
        Insn::Ebreak => raise(addr, Cause::Breakpoint),
        Insn::Fence { .. } | Insn::Wfi | Insn::Mret | Insn::Csr { .. } => compute(addr, 0),
    }
}

/// A value, and on to the next word.
pub fn compute(addr: u32, value: u32) -> Outcome
    ensures outcome { result ≡ computed addr value }
{
    Outcome {
        value,
        next: addr.wrapping_add(4),
        reach: Reach::Nothing,
        cause: None,
    }
}

/// A trap with `mtval` 0.
fn raise(addr: u32, cause: Cause) -> Outcome
    ensures outcome { result ≡ raised addr cause }
{
    Outcome {
        cause: Some((cause, 0)),
        ..compute(addr, 0)
    }
}

/// On to `target`, or a trap where that is misaligned.
fn redirect(addr: u32, target: u32) -> Outcome
    ensures outcome { result ≡ redirected addr target }
{
    if target % 4 == 0 {
        Outcome {
            next: target,
            ..compute(addr, 0)
        }
    } else {
        Outcome {
            cause: Some((Cause::InstructionMisaligned, target)),
            ..compute(addr, 0)
        }
    }
}

pub fn jump(addr: u32, target: u32) -> Outcome
    ensures outcome { result ≡ jumped addr target }
{
    Outcome {
        value: addr.wrapping_add(4),
        ..redirect(addr, target)
    }
}

pub fn branch(addr: u32, taken: bool, target: u32) -> Outcome
    ensures outcome { result ≡ branched addr taken target }
{
    if taken {
        redirect(addr, target)
    } else {
        compute(addr, 0)
    }
}

/// A load of what lies at `target`.
fn load(addr: u32, target: u32, width: Width, signed: bool) -> Outcome
    ensures outcome { result ≡ loaded addr target width signed }
{
    Outcome {
        reach: Reach::Load {
            addr: target,
            width,
            signed,
        },
        cause: misaligned(Cause::LoadMisaligned, target, width),
        ..compute(addr, 0)
    }
}

/// A store at `target`.
fn store(addr: u32, target: u32, width: Width, value: u32) -> Outcome
    ensures outcome { result ≡ stored addr target width value }
{
    Outcome {
        reach: Reach::Store {
            addr: target,
            width,
            value: cut(value, width),
        },
        cause: misaligned(Cause::StoreMisaligned, target, width),
        ..compute(addr, 0)
    }
}

/// The given cause where an access isn't aligned.
fn misaligned(cause: Cause, target: u32, width: Width) -> Option<(Cause, u32)>
    ensures cause { result ≡ misalignment cause target width }
{
    let aligned = match width {
        Width::Byte => true,
        Width::Half => target % 2 == 0,
        Width::Word => target % 4 == 0,
    };
    if aligned { None } else { Some((cause, target)) }
}
