ghost use Rattle.std.specs.Prelude.{◌≡◌, ◌≢◌, ◌<◌, ◌⊎◌, ℕ, Some, option_map};
ghost use Rattle.std.specs.Bool.{OnTrue};
ghost use Rattle.rv_decode.specs.Fits.{Fits};
ghost use Rattle.rv_decode.specs.declared.insn.Insn.TheVariants.{Branch, OpImm, Op, MulDiv};
ghost use Rattle.rv_exec.specs.Eval.{eval_of};
ghost use Rattle.rv_exec.specs.Bare.{bare_of, insn_of, insn_in};

use crate::alu::alu;
use crate::branch::is_taken;
use crate::evaluation::{branch, compute, jump};
use crate::muldiv::muldiv;
use crate::outcome::Outcome;
use rv_decode::Insn;

/// What an instruction that only computes does with its operands: a row for each of RV32IM. Those
/// that end in `Imm` have the immediate as their second operand.
#[derive(Clone, Copy, Debug, PartialEq, Eq)]
pub enum Operation {
    /// FENCE and WFI, which do nothing here.
    Nothing,
    Lui,
    Auipc,
    Jal,
    Jalr,
    Beq,
    Bne,
    Blt,
    Bge,
    Bltu,
    Bgeu,
    AddImm,
    SllImm,
    SltImm,
    SltuImm,
    XorImm,
    SrlImm,
    SraImm,
    OrImm,
    AndImm,
    Add,
    Sub,
    Sll,
    Slt,
    Sltu,
    Xor,
    Srl,
    Sra,
    Or,
    And,
    Mul,
    Mulh,
    Mulhsu,
    Mulhu,
    Div,
    Divu,
    Rem,
    Remu,
    /// None of these: the instruction reaches memory or a control and status register, traps by
    /// itself, returns from a trap, or lets fetch see memory.
    Other,
}

/// An instruction that only computes, without its registers, or none: told apart once, so that each
/// evaluation looks at one number.
#[derive(Clone, Copy, Debug, PartialEq, Eq)]
pub struct BareInsn {
    pub operation: Operation,
    /// The immediate, and 0 where the instruction has none.
    pub imm: u32,
}

fn branch_operation(kind: u8) -> Operation
    requires below { kind < 8 }
    requires not_2 { kind ≢ 2 }
    requires not_3 { kind ≢ 3 }
    ensures operation { (imm : ℕ) → insn_of result imm ≡ Some (Branch kind 0 0 imm) }
{
    match kind {
        0 => Operation::Beq,
        1 => Operation::Bne,
        4 => Operation::Blt,
        5 => Operation::Bge,
        6 => Operation::Bltu,
        _ => Operation::Bgeu,
    }
}

fn immediate_operation(kind: u8, alt: bool) -> Operation
    requires below { kind < 8 }
    requires alt { OnTrue alt (kind ≡ 5) }
    ensures operation { (imm : ℕ) → insn_of result imm ≡ Some (OpImm kind alt 0 0 imm) }
{
    match kind {
        0 => Operation::AddImm,
        1 => Operation::SllImm,
        2 => Operation::SltImm,
        3 => Operation::SltuImm,
        4 => Operation::XorImm,
        5 if alt => Operation::SraImm,
        5 => Operation::SrlImm,
        6 => Operation::OrImm,
        _ => Operation::AndImm,
    }
}

fn register_operation(kind: u8, alt: bool) -> Operation
    requires below { kind < 8 }
    requires alt { OnTrue alt ((kind ≡ 0) ⊎ (kind ≡ 5)) }
    ensures operation { (imm : ℕ) → insn_of result imm ≡ Some (Op kind alt 0 0 0) }
{
    match kind {
        0 if alt => Operation::Sub,
        0 => Operation::Add,
        1 => Operation::Sll,
        2 => Operation::Slt,
        3 => Operation::Sltu,
        4 => Operation::Xor,
        5 if alt => Operation::Sra,
        5 => Operation::Srl,
        6 => Operation::Or,
        _ => Operation::And,
    }
}

fn product_operation(kind: u8) -> Operation
    requires below { kind < 8 }
    ensures operation { (imm : ℕ) → insn_of result imm ≡ Some (MulDiv kind 0 0 0) }
{
    match kind {
        0 => Operation::Mul,
        1 => Operation::Mulh,
        2 => Operation::Mulhsu,
        3 => Operation::Mulhu,
        4 => Operation::Div,
        5 => Operation::Divu,
        6 => Operation::Rem,
        _ => Operation::Remu,
    }
}

impl BareInsn {
    /// An instruction without its registers, where it only computes.
    pub fn of(insn: Insn) -> BareInsn
        requires fits { Fits insn }
        ensures bare { insn_in result ≡ bare_of insn }
    {
        let (operation, imm) = match insn {
            Insn::Lui { imm, .. } => (Operation::Lui, imm),
            Insn::Auipc { imm, .. } => (Operation::Auipc, imm),
            Insn::Jal { imm, .. } => (Operation::Jal, imm),
            Insn::Jalr { imm, .. } => (Operation::Jalr, imm),
            Insn::Branch { kind, imm, .. } => (branch_operation(kind), imm),
            Insn::OpImm { kind, alt, imm, .. } => (immediate_operation(kind, alt), imm),
            Insn::Op { kind, alt, .. } => (register_operation(kind, alt), 0),
            Insn::MulDiv { kind, .. } => (product_operation(kind), 0),
            Insn::Fence { fetch: false, .. } | Insn::Wfi => (Operation::Nothing, 0),
            _ => (Operation::Other, 0),
        };
        BareInsn { operation, imm }
    }

    /// What it does at `addr`, as `eval` tells of the instruction with its registers, where `a` and
    /// `b` are the values of `rs1` and `rs2`. None where there is none.
    #[tactic(auto, unfolding(crate::specs::Eval::eval_of))]
    #[inline(always)]
    pub fn eval(&self, addr: u32, a: u32, b: u32) -> Option<Outcome>
        ensures outcome { result ≡ option_map (λ insn. eval_of insn addr a b) (insn_in self.now) }
    {
        let imm = self.imm;
        Some(match self.operation {
            Operation::Nothing => compute(addr, 0),
            Operation::Lui => compute(addr, imm),
            Operation::Auipc => compute(addr, addr.wrapping_add(imm)),
            Operation::Jal => jump(addr, addr.wrapping_add(imm)),
            Operation::Jalr => jump(addr, a.wrapping_add(imm) & !1),
            Operation::Beq => branch(addr, is_taken(0, a, b), addr.wrapping_add(imm)),
            Operation::Bne => branch(addr, is_taken(1, a, b), addr.wrapping_add(imm)),
            Operation::Blt => branch(addr, is_taken(4, a, b), addr.wrapping_add(imm)),
            Operation::Bge => branch(addr, is_taken(5, a, b), addr.wrapping_add(imm)),
            Operation::Bltu => branch(addr, is_taken(6, a, b), addr.wrapping_add(imm)),
            Operation::Bgeu => branch(addr, is_taken(7, a, b), addr.wrapping_add(imm)),
            Operation::AddImm => compute(addr, alu(0, false, a, imm)),
            Operation::SllImm => compute(addr, alu(1, false, a, imm)),
            Operation::SltImm => compute(addr, alu(2, false, a, imm)),
            Operation::SltuImm => compute(addr, alu(3, false, a, imm)),
            Operation::XorImm => compute(addr, alu(4, false, a, imm)),
            Operation::SrlImm => compute(addr, alu(5, false, a, imm)),
            Operation::SraImm => compute(addr, alu(5, true, a, imm)),
            Operation::OrImm => compute(addr, alu(6, false, a, imm)),
            Operation::AndImm => compute(addr, alu(7, false, a, imm)),
            Operation::Add => compute(addr, alu(0, false, a, b)),
            Operation::Sub => compute(addr, alu(0, true, a, b)),
            Operation::Sll => compute(addr, alu(1, false, a, b)),
            Operation::Slt => compute(addr, alu(2, false, a, b)),
            Operation::Sltu => compute(addr, alu(3, false, a, b)),
            Operation::Xor => compute(addr, alu(4, false, a, b)),
            Operation::Srl => compute(addr, alu(5, false, a, b)),
            Operation::Sra => compute(addr, alu(5, true, a, b)),
            Operation::Or => compute(addr, alu(6, false, a, b)),
            Operation::And => compute(addr, alu(7, false, a, b)),
            Operation::Mul => compute(addr, muldiv(0, a, b)),
            Operation::Mulh => compute(addr, muldiv(1, a, b)),
            Operation::Mulhsu => compute(addr, muldiv(2, a, b)),
            Operation::Mulhu => compute(addr, muldiv(3, a, b)),
            Operation::Div => compute(addr, muldiv(4, a, b)),
            Operation::Divu => compute(addr, muldiv(5, a, b)),
            Operation::Rem => compute(addr, muldiv(6, a, b)),
            Operation::Remu => compute(addr, muldiv(7, a, b)),
            Operation::Other => return None,
        })
    }
}
