//! The text of a word: a mnemonic, and its operands after it.
ghost use Rattle.std.specs.Prelude.{◌≡◌, ◌≢◌, ◌+◌, ◌/◌, ◌^◌, ◌≤◌, ◌<◌, ◌==◌, ◌||◌, [], ◌∷◌, ◌++◌};
ghost use Rattle.std.specs.Prelude.{length, codes, MatchBool};
ghost use Rattle.std.specs.Bool.{OnTrue};
ghost use Rattle.fsim_base.specs.Number.{bits_of};
ghost use Rattle.rv_decode.specs.Fits.{Fits, IsRegister, IsImmediate};
ghost use Rattle.disassembly.specs.Number.{hex, prefixed};
ghost use Rattle.disassembly.specs.Mnemonic.{by_funct3, csr_forms, immediate_name};
ghost use Rattle.disassembly.specs.Text.{with_operands, insn_text, word_text, register, based};
ghost use Rattle.disassembly.specs.Text.{target, accesses, immediate_text, csr_text, source_text};

use crate::text::{LONGEST, WordText};
use crate::{mnemonic, operand};
use rv_decode::{Insn, decode};

/// Writes the text of a word at an address, in place of what the buffer held. It takes no memory.
#[tactic(auto, using(crate::proofs::Fitting::decoded_fits), unfolding(crate::specs::Text::word_text))]
pub fn write_text(addr: u32, word: u32, text: &mut WordText)
    ensures text { text.new ≡ word_text addr word }
    ensures len { length text.new ≤ LONGEST }
{
    text.clear();
    match decode(word) {
        Some(insn) => write_insn(addr, insn, text),
        None => write_number(word, text),
    }
}

/// Writes a word that is no instruction.
#[tactic(auto, using(crate::proofs::Hex::length_word))]
fn write_number(word: u32, text: &mut WordText)
    requires empty { text.old ≡ [] }
    ensures text { text.new ≡ codes ".word 0x" ++ hex 8 word }
    ensures len { length text.new ≤ LONGEST }
{
    text.bytes(b".word 0x");
    text.hex(8, word);
}

/// Writes the text of an instruction at an address.
#[tactic(auto, unfolding(crate::specs::Mnemonic::mnemonic, crate::specs::Text::operands))]
fn write_insn(addr: u32, insn: Insn, text: &mut WordText)
    requires fits { Fits insn }
    requires empty { text.old ≡ [] }
    ensures text { text.new ≡ insn_text addr insn }
    ensures len { length text.new ≤ LONGEST }
{
    match insn {
        Insn::Lui { rd, imm } => upper(text, b"lui", rd, imm),
        Insn::Auipc { rd, imm } => upper(text, b"auipc", rd, imm),
        Insn::Jal { rd, imm } => jump(text, addr, rd, imm),
        Insn::Jalr { rd, rs1, imm } => offset(text, b"jalr", rd, imm, rs1),
        Insn::Branch {
            kind,
            rs1,
            rs2,
            imm,
        } => branch(text, addr, mnemonic::branch(kind), (rs1, rs2), imm),
        Insn::Load { kind, rd, rs1, imm } => offset(text, mnemonic::load(kind), rd, imm, rs1),
        Insn::Store {
            kind,
            rs1,
            rs2,
            imm,
        } => offset(text, mnemonic::store(kind), rs2, imm, rs1),
        Insn::OpImm {
            kind,
            alt,
            rd,
            rs1,
            imm,
        } => immediate(text, kind, alt, (rd, rs1), imm),
        Insn::Op {
            kind,
            alt,
            rd,
            rs1,
            rs2,
        } => registers(text, mnemonic::register_form(kind, alt), rd, rs1, rs2),
        Insn::MulDiv { kind, rd, rs1, rs2 } => {
            registers(text, mnemonic::product(kind), rd, rs1, rs2)
        }
        Insn::Fence {
            upper,
            fetch: false,
            ..
        } => fence(text, upper),
        Insn::Fence { fetch: true, .. } => text.bytes(b"fence.i"),
        Insn::Ecall => text.bytes(b"ecall"),
        Insn::Ebreak => text.bytes(b"ebreak"),
        Insn::Mret => text.bytes(b"mret"),
        Insn::Wfi => text.bytes(b"wfi"),
        Insn::Csr { kind, rd, rs1, csr } => csr_access(text, kind, rd, csr, rs1),
    }
}

/// A mnemonic, and a register as the first operand.
fn first_operand(text: &mut WordText, name: &[u8], first: u8)
    requires name { length name.now ≤ 6 }
    requires first { IsRegister first }
    requires empty { text.old ≡ [] }
    ensures text { text.new ≡ name.now ++ codes " " ++ register first }
    ensures len { length text.new ≤ length name.now + 4 }
{
    text.bytes(name);
    text.byte(b' ');
    operand::register(text, first);
}

/// LUI and AUIPC.
fn upper(text: &mut WordText, name: &[u8], rd: u8, imm: u32)
    requires name { length name.now ≤ 5 }
    requires rd { IsRegister rd }
    requires empty { text.old ≡ [] }
    ensures text { text.new ≡ with_operands name.now (register rd ∷ prefixed (imm / 2 ^ 12) ∷ []) }
    ensures len { length text.new ≤ LONGEST }
{
    first_operand(text, name, rd);
    text.byte(b',');
    operand::prefixed(text, imm >> 12);
}

/// JAL.
fn jump(text: &mut WordText, addr: u32, rd: u8, imm: u32)
    requires rd { IsRegister rd }
    requires empty { text.old ≡ [] }
    ensures text { text.new ≡ with_operands (codes "jal") (register rd ∷ target addr imm ∷ []) }
    ensures len { length text.new ≤ LONGEST }
{
    first_operand(text, b"jal", rd);
    text.byte(b',');
    operand::target(text, addr, imm);
}

/// Branches, of their two registers.
fn branch(text: &mut WordText, addr: u32, name: &[u8], sources: (u8, u8), imm: u32)
    requires name { length name.now ≤ 4 }
    requires sources { IsRegister sources.0 × IsRegister sources.1 }
    requires empty { text.old ≡ [] }
    ensures text { text.new ≡ with_operands name.now
        (register sources.0 ∷ register sources.1 ∷ target addr imm ∷ []) }
    ensures len { length text.new ≤ LONGEST }
{
    first_operand(text, name, sources.0);
    text.byte(b',');
    operand::register(text, sources.1);
    text.byte(b',');
    operand::target(text, addr, imm);
}

/// A register, and an address by an offset: JALR, loads and stores.
fn offset(text: &mut WordText, name: &[u8], first: u8, imm: u32, rs1: u8)
    requires name { length name.now ≤ 4 }
    requires first { IsRegister first }
    requires imm { IsImmediate imm 12 }
    requires rs1 { IsRegister rs1 }
    requires empty { text.old ≡ [] }
    ensures text { text.new ≡ with_operands name.now (register first ∷ based imm rs1 ∷ []) }
    ensures len { length text.new ≤ LONGEST }
{
    first_operand(text, name, first);
    text.byte(b',');
    operand::based(text, imm, rs1);
}

/// Three registers.
fn registers(text: &mut WordText, name: &[u8], rd: u8, rs1: u8, rs2: u8)
    requires name { length name.now ≤ 6 }
    requires registers { IsRegister rd × IsRegister rs1 × IsRegister rs2 }
    requires empty { text.old ≡ [] }
    ensures text { text.new ≡ with_operands name.now
        (register rd ∷ register rs1 ∷ register rs2 ∷ []) }
    ensures len { length text.new ≤ LONGEST }
{
    first_operand(text, name, rd);
    text.byte(b',');
    operand::register(text, rs1);
    text.byte(b',');
    operand::register(text, rs2);
}

/// Two registers and an immediate, or the amount of a shift.
fn immediate(text: &mut WordText, kind: u8, alt: bool, registers: (u8, u8), imm: u32)
    requires row { kind < 8 }
    requires alternative { OnTrue alt (kind ≡ 5) }
    requires registers { IsRegister registers.0 × IsRegister registers.1 }
    requires imm { MatchBool (kind == 1 || kind == 5) (imm < 32) (IsImmediate imm 12) }
    requires empty { text.old ≡ [] }
    ensures text { text.new ≡ with_operands (immediate_name kind alt)
        (register registers.0 ∷ register registers.1 ∷ immediate_text kind imm ∷ []) }
    ensures len { length text.new ≤ LONGEST }
{
    first_operand(text, mnemonic::immediate_form(kind, alt), registers.0);
    text.byte(b',');
    operand::register(text, registers.1);
    text.byte(b',');
    operand::immediate(text, kind, imm);
}

/// FENCE, with the accesses before it and after it that it orders.
fn fence(text: &mut WordText, upper: u16)
    requires empty { text.old ≡ [] }
    ensures text { text.new ≡ with_operands (codes "fence")
        (accesses (bits_of upper 7 4) ∷ accesses (bits_of upper 3 0) ∷ []) }
    ensures len { length text.new ≤ LONGEST }
{
    text.bytes(b"fence ");
    operand::accesses(text, upper >> 4 & 15);
    text.byte(b',');
    operand::accesses(text, upper & 15);
}

/// A CSR instruction.
fn csr_access(text: &mut WordText, kind: u8, rd: u8, csr: u16, rs1: u8)
    requires row { (kind < 8) × (kind ≢ 0) × (kind ≢ 4) }
    requires rd { IsRegister rd }
    requires csr { csr < 2 ^ 12 }
    requires rs1 { IsRegister rs1 }
    requires empty { text.old ≡ [] }
    ensures text { text.new ≡ with_operands (by_funct3 csr_forms kind)
        (register rd ∷ csr_text csr ∷ source_text kind rs1 ∷ []) }
    ensures len { length text.new ≤ LONGEST }
{
    if kind < 4 {
        before_source(text, mnemonic::csr_form(kind), rd, csr);
        operand::register(text, rs1);
    } else {
        before_source(text, mnemonic::csr_immediate_form(kind), rd, csr);
        text.decimal(rs1);
    }
}

/// All of a CSR instruction but its source.
fn before_source(text: &mut WordText, name: &[u8], rd: u8, csr: u16)
    requires name { length name.now ≤ 6 }
    requires rd { IsRegister rd }
    requires csr { csr < 2 ^ 12 }
    requires empty { text.old ≡ [] }
    ensures text { text.new ≡ name.now ++ codes " " ++ register rd ++ codes "," ++ csr_text csr
        ++ codes "," }
    ensures len { length text.new ≤ length name.now + 19 }
{
    first_operand(text, name, rd);
    text.byte(b',');
    operand::csr(text, csr);
    text.byte(b',');
}
