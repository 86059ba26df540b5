ghost use Rattle.std.specs.Prelude.{◌≡◌, ◌↔◌, ℕ, ◌%◌, ◌≤◌, IsTrue};
ghost use Rattle.fsim_base.specs.Number.{sign_extended};
ghost use Rattle.rv_decode.specs.Fits.{Fits};

use fsim_base::{Class, Flow, sign_extend};

/// An instruction of RV32IM with Zicsr, FENCE.I and machine mode's MRET and WFI, as its word's
/// fields say.
///
/// `rd`, `rs1` and `rs2` are register numbers, `kind` is the field funct3 and `imm` the immediate
/// of the instruction's format, sign-extended to 32 bits (RISC-V unprivileged manual, section 2.3).
#[derive(Clone, Copy, Debug, PartialEq, Eq)]
pub enum Insn {
    /// `imm` has the immediate in its upper 20 bits.
    Lui {
        rd: u8,
        imm: u32,
    },
    /// `imm` has the immediate in its upper 20 bits.
    Auipc {
        rd: u8,
        imm: u32,
    },
    Jal {
        rd: u8,
        imm: u32,
    },
    Jalr {
        rd: u8,
        rs1: u8,
        imm: u32,
    },
    Branch {
        kind: u8,
        rs1: u8,
        rs2: u8,
        imm: u32,
    },
    Load {
        kind: u8,
        rd: u8,
        rs1: u8,
        imm: u32,
    },
    Store {
        kind: u8,
        rs1: u8,
        rs2: u8,
        imm: u32,
    },
    /// For a shift, `imm` is the amount; `alt` says that funct7 is 0x20.
    OpImm {
        kind: u8,
        alt: bool,
        rd: u8,
        rs1: u8,
        imm: u32,
    },
    /// `alt` says that funct7 is 0x20.
    Op {
        kind: u8,
        alt: bool,
        rd: u8,
        rs1: u8,
        rs2: u8,
    },
    MulDiv {
        kind: u8,
        rd: u8,
        rs1: u8,
        rs2: u8,
    },
    /// FENCE, or FENCE.I where `fetch` holds; `upper` is the word's twelve upper bits.
    Fence {
        rd: u8,
        rs1: u8,
        upper: u16,
        fetch: bool,
    },
    Ecall,
    Ebreak,
    Mret,
    Wfi,
    /// `csr` is the register's address; in the immediate forms (`kind` 5 to 7) `rs1` is the
    /// immediate.
    Csr {
        kind: u8,
        rd: u8,
        rs1: u8,
        csr: u16,
    },
}

impl Insn {
    ghost use Rattle.rv_decode.specs.Fits.{HasWord};
    ghost use Rattle.rv_decode.specs.Class.{class_of, flow_of, sources_of, dest_of};

    /// The unit that the instruction waits for.
    pub fn class(&self) -> Class
        ensures class { result ≡ class_of self.now }
    {
        match *self {
            Insn::Load { .. } => Class::Load,
            Insn::Store { .. } => Class::Store,
            Insn::MulDiv { kind, .. } if kind < 4 => Class::Mul,
            Insn::MulDiv { .. } => Class::Div,
            Insn::Mret | Insn::Csr { .. } => Class::Serial,
            _ => Class::Alu,
        }
    }

    /// What a predictor may learn from the instruction: branches are `Branch`; JAL, JALR and MRET
    /// are `Jump`.
    pub fn flow(&self) -> Flow
        ensures flow { result ≡ flow_of self.now }
    {
        match *self {
            Insn::Branch { .. } => Flow::Branch,
            Insn::Jal { .. } | Insn::Jalr { .. } | Insn::Mret => Flow::Jump,
            _ => Flow::Plain,
        }
    }

    /// The numbers of the registers that the instruction reads, rs1 and rs2. x0 is named like any
    /// other.
    pub fn sources(&self) -> (Option<u8>, Option<u8>)
        ensures registers { result ≡ sources_of self.now }
    {
        match *self {
            Insn::Jalr { rs1, .. } | Insn::Load { rs1, .. } | Insn::OpImm { rs1, .. } => {
                (Some(rs1), None)
            }
            Insn::Branch { rs1, rs2, .. }
            | Insn::Store { rs1, rs2, .. }
            | Insn::Op { rs1, rs2, .. }
            | Insn::MulDiv { rs1, rs2, .. } => (Some(rs1), Some(rs2)),
            Insn::Csr { kind, rs1, .. } if kind < 4 => (Some(rs1), None),
            _ => (None, None),
        }
    }

    /// The number of the register that the instruction writes. None where it writes none or names
    /// x0.
    pub fn dest(&self) -> Option<u8>
        ensures register { result ≡ dest_of self.now }
    {
        match *self {
            Insn::Lui { rd, .. }
            | Insn::Auipc { rd, .. }
            | Insn::Jal { rd, .. }
            | Insn::Jalr { rd, .. }
            | Insn::Load { rd, .. }
            | Insn::OpImm { rd, .. }
            | Insn::Op { rd, .. }
            | Insn::MulDiv { rd, .. }
            | Insn::Csr { rd, .. }
                if rd != 0 => { Some(rd) }
            _ => None,
        }
    }

    /// Whether some word spells the instruction: its fields are in their ranges, and its funct3 and
    /// funct7 are those of a row of the instruction table.
    #[tactic(auto, using(crate::proofs::Spelled::fits_spelled, crate::proofs::Spelled::spelled_fits))]
    pub fn fits(&self) -> bool
        ensures ranges { IsTrue result ↔ Fits self.now }
        ensures spelled { IsTrue result ↔ HasWord self.now }
    {
        fields_fit(*self)
    }
}

/// Whether each field is in its range, and funct3 and funct7 are those of a row.
fn fields_fit(insn: Insn) -> bool
    ensures ranges { IsTrue result ↔ Fits insn }
{
    match insn {
        Insn::Lui { rd, imm } | Insn::Auipc { rd, imm } => rd < 32 && imm % 0x1000 == 0,
        Insn::Jal { rd, imm } => rd < 32 && is_offset(imm, 21),
        Insn::Jalr { rd, rs1, imm } => rd < 32 && rs1 < 32 && is_immediate(imm, 12),
        Insn::Branch {
            kind,
            rs1,
            rs2,
            imm,
        } => kind < 8 && kind != 2 && kind != 3 && rs1 < 32 && rs2 < 32 && is_offset(imm, 13),
        Insn::Load { kind, rd, rs1, imm } => {
            kind < 6 && kind != 3 && rd < 32 && rs1 < 32 && is_immediate(imm, 12)
        }
        Insn::Store {
            kind,
            rs1,
            rs2,
            imm,
        } => kind < 3 && rs1 < 32 && rs2 < 32 && is_immediate(imm, 12),
        Insn::OpImm {
            kind,
            alt,
            rd,
            rs1,
            imm,
        } => {
            let in_range = match kind {
                1 | 5 => imm < 32,
                _ => is_immediate(imm, 12),
            };
            kind < 8 && (!alt || kind == 5) && rd < 32 && rs1 < 32 && in_range
        }
        Insn::Op {
            kind,
            alt,
            rd,
            rs1,
            rs2,
        } => kind < 8 && (!alt || kind == 0 || kind == 5) && rd < 32 && rs1 < 32 && rs2 < 32,
        Insn::MulDiv { kind, rd, rs1, rs2 } => kind < 8 && rd < 32 && rs1 < 32 && rs2 < 32,
        Insn::Fence { rd, rs1, upper, .. } => rd < 32 && rs1 < 32 && upper < 0x1000,
        Insn::Ecall | Insn::Ebreak | Insn::Mret | Insn::Wfi => true,
        Insn::Csr { kind, rd, rs1, csr } => {
            kind < 8 && kind != 0 && kind != 4 && rd < 32 && rs1 < 32 && csr < 0x1000
        }
    }
}

/// Whether a value is its lowest `bits` bits, widened by their sign.
fn is_immediate(value: u32, bits: u32) -> bool
    requires some { 1 ≤ bits }
    requires within { bits ≤ 32 }
    ensures same { IsTrue result ↔ (sign_extended value bits ≡ value) }
{
    sign_extend(value, bits) == value
}

/// The same for an immediate that is even.
fn is_offset(value: u32, bits: u32) -> bool
    requires some { 1 ≤ bits }
    requires within { bits ≤ 32 }
    ensures same { IsTrue result ↔ ((sign_extended value bits ≡ value) × (value % 2 ≡ 0)) }
{
    is_immediate(value, bits) && value % 2 == 0
}
