ghost use Rattle.std.specs.Prelude.{◌≡◌, ◌<◌};
ghost use Rattle.rv_decode.specs.Encode.{encode_of};
ghost use Rattle.rv_decode.specs.Fits.{Fits};
ghost use Rattle.gen_image.specs.Assembly.{minus, lui, auipc, addi, andi, add, sub, sll, sltu, xor};
ghost use Rattle.gen_image.specs.Assembly.{or, mul, divu, lw, sw, bne, blt, jal, jalr, csrrw};
ghost use Rattle.gen_image.specs.Assembly.{csrrs, csrrsi, ecall, mret};

use rv_decode::{Insn, encode};

/// A negative immediate.
pub fn minus(number: u32) -> u32
    requires positive { 0 < number }
    ensures { result ≡ minus number }
{
    u32::MAX - number + 1
}

pub fn lui(rd: u8, imm: u32) -> u32
    requires fits { Fits (lui rd imm) }
    ensures { result ≡ encode_of (lui rd imm) }
{
    encode(Insn::Lui { rd, imm })
}

pub fn auipc(rd: u8, imm: u32) -> u32
    requires fits { Fits (auipc rd imm) }
    ensures { result ≡ encode_of (auipc rd imm) }
{
    encode(Insn::Auipc { rd, imm })
}

pub fn addi(rd: u8, rs1: u8, imm: u32) -> u32
    requires fits { Fits (addi rd rs1 imm) }
    ensures { result ≡ encode_of (addi rd rs1 imm) }
{
    encode(Insn::OpImm {
        kind: 0,
        alt: false,
        rd,
        rs1,
        imm,
    })
}

pub fn andi(rd: u8, rs1: u8, imm: u32) -> u32
    requires fits { Fits (andi rd rs1 imm) }
    ensures { result ≡ encode_of (andi rd rs1 imm) }
{
    encode(Insn::OpImm {
        kind: 7,
        alt: false,
        rd,
        rs1,
        imm,
    })
}

pub fn add(rd: u8, rs1: u8, rs2: u8) -> u32
    requires fits { Fits (add rd rs1 rs2) }
    ensures { result ≡ encode_of (add rd rs1 rs2) }
{
    encode(Insn::Op {
        kind: 0,
        alt: false,
        rd,
        rs1,
        rs2,
    })
}

pub fn sub(rd: u8, rs1: u8, rs2: u8) -> u32
    requires fits { Fits (sub rd rs1 rs2) }
    ensures { result ≡ encode_of (sub rd rs1 rs2) }
{
    encode(Insn::Op {
        kind: 0,
        alt: true,
        rd,
        rs1,
        rs2,
    })
}

pub fn sll(rd: u8, rs1: u8, rs2: u8) -> u32
    requires fits { Fits (sll rd rs1 rs2) }
    ensures { result ≡ encode_of (sll rd rs1 rs2) }
{
    encode(Insn::Op {
        kind: 1,
        alt: false,
        rd,
        rs1,
        rs2,
    })
}

pub fn sltu(rd: u8, rs1: u8, rs2: u8) -> u32
    requires fits { Fits (sltu rd rs1 rs2) }
    ensures { result ≡ encode_of (sltu rd rs1 rs2) }
{
    encode(Insn::Op {
        kind: 3,
        alt: false,
        rd,
        rs1,
        rs2,
    })
}

pub fn xor(rd: u8, rs1: u8, rs2: u8) -> u32
    requires fits { Fits (xor rd rs1 rs2) }
    ensures { result ≡ encode_of (xor rd rs1 rs2) }
{
    encode(Insn::Op {
        kind: 4,
        alt: false,
        rd,
        rs1,
        rs2,
    })
}

pub fn or(rd: u8, rs1: u8, rs2: u8) -> u32
    requires fits { Fits (or rd rs1 rs2) }
    ensures { result ≡ encode_of (or rd rs1 rs2) }
{
    encode(Insn::Op {
        kind: 6,
        alt: false,
        rd,
        rs1,
        rs2,
    })
}

pub fn mul(rd: u8, rs1: u8, rs2: u8) -> u32
    requires fits { Fits (mul rd rs1 rs2) }
    ensures { result ≡ encode_of (mul rd rs1 rs2) }
{
    encode(Insn::MulDiv {
        kind: 0,
        rd,
        rs1,
        rs2,
    })
}

pub fn divu(rd: u8, rs1: u8, rs2: u8) -> u32
    requires fits { Fits (divu rd rs1 rs2) }
    ensures { result ≡ encode_of (divu rd rs1 rs2) }
{
    encode(Insn::MulDiv {
        kind: 5,
        rd,
        rs1,
        rs2,
    })
}

/// `lw rd, imm(rs1)`
pub fn lw(rd: u8, imm: u32, rs1: u8) -> u32
    requires fits { Fits (lw rd imm rs1) }
    ensures { result ≡ encode_of (lw rd imm rs1) }
{
    encode(Insn::Load {
        kind: 2,
        rd,
        rs1,
        imm,
    })
}

/// `sw rs2, imm(rs1)`
pub fn sw(rs2: u8, imm: u32, rs1: u8) -> u32
    requires fits { Fits (sw rs2 imm rs1) }
    ensures { result ≡ encode_of (sw rs2 imm rs1) }
{
    encode(Insn::Store {
        kind: 2,
        rs1,
        rs2,
        imm,
    })
}

pub fn bne(rs1: u8, rs2: u8, imm: u32) -> u32
    requires fits { Fits (bne rs1 rs2 imm) }
    ensures { result ≡ encode_of (bne rs1 rs2 imm) }
{
    encode(Insn::Branch {
        kind: 1,
        rs1,
        rs2,
        imm,
    })
}

pub fn blt(rs1: u8, rs2: u8, imm: u32) -> u32
    requires fits { Fits (blt rs1 rs2 imm) }
    ensures { result ≡ encode_of (blt rs1 rs2 imm) }
{
    encode(Insn::Branch {
        kind: 4,
        rs1,
        rs2,
        imm,
    })
}

pub fn jal(rd: u8, imm: u32) -> u32
    requires fits { Fits (jal rd imm) }
    ensures { result ≡ encode_of (jal rd imm) }
{
    encode(Insn::Jal { rd, imm })
}

/// `jalr rd, imm(rs1)`
pub fn jalr(rd: u8, imm: u32, rs1: u8) -> u32
    requires fits { Fits (jalr rd imm rs1) }
    ensures { result ≡ encode_of (jalr rd imm rs1) }
{
    encode(Insn::Jalr { rd, rs1, imm })
}

pub fn csrrw(rd: u8, csr: u16, rs1: u8) -> u32
    requires fits { Fits (csrrw rd csr rs1) }
    ensures { result ≡ encode_of (csrrw rd csr rs1) }
{
    encode(Insn::Csr {
        kind: 1,
        rd,
        rs1,
        csr,
    })
}

pub fn csrrs(rd: u8, csr: u16, rs1: u8) -> u32
    requires fits { Fits (csrrs rd csr rs1) }
    ensures { result ≡ encode_of (csrrs rd csr rs1) }
{
    encode(Insn::Csr {
        kind: 2,
        rd,
        rs1,
        csr,
    })
}

pub fn csrrsi(rd: u8, csr: u16, imm: u8) -> u32
    requires fits { Fits (csrrsi rd csr imm) }
    ensures { result ≡ encode_of (csrrsi rd csr imm) }
{
    encode(Insn::Csr {
        kind: 6,
        rd,
        rs1: imm,
        csr,
    })
}

pub fn ecall() -> u32
    ensures { result ≡ encode_of ecall }
{
    encode(Insn::Ecall)
}

pub fn mret() -> u32
    ensures { result ≡ encode_of mret }
{
    encode(Insn::Mret)
}
