ghost use Rattle.std.specs.Prelude.{◌≡◌, ◌≤◌, ◌↔◌, ℕ, None, Some, IsTrue, slice_get, count_by};
ghost use Rattle.fsim_base.specs.Number.{bits_of};
ghost use Rattle.rv_decode.specs.Decode.{decode_of};
ghost use Rattle.rv_decode.specs.Table.{Row, has_fixed, table};

use crate::field::{
    funct3, funct7, immediate_b, immediate_i, immediate_j, immediate_s, immediate_u, opcode, rd,
    rs1, rs2, upper,
};
use crate::insn::Insn;

/// The instruction that a word spells: the row of the instruction table whose fixed bits the word
/// has, with the word's fields. None where no row has them, that is, where the word is illegal.
#[tactic(auto, unfolding(crate::specs::Decode::decode_of, crate::specs::Table::table))]
pub fn decode(word: u32) -> Option<Insn>
    ensures row { result ≡ decode_of word }
{
    match opcode(word) {
        0x37 => Some(Insn::Lui {
            rd: rd(word),
            imm: immediate_u(word),
        }),
        0x17 => Some(Insn::Auipc {
            rd: rd(word),
            imm: immediate_u(word),
        }),
        0x6f => Some(Insn::Jal {
            rd: rd(word),
            imm: immediate_j(word),
        }),
        0x67 => jalr(word),
        0x63 => branch(word),
        0x03 => load(word),
        0x23 => store(word),
        0x13 => op_imm(word),
        0x33 => op(word),
        0x0f => fence(word),
        0x73 => system(word),
        _ => None,
    }
}

/// The laws of the instruction table, for every word.
pub fn one_row()
    // No word has the fixed bits of two rows.
    ensures at_most { (word : ℕ) → count_by (has_fixed word) table ≤ 1 }
    // A word that has those of a row is decoded by this row.
    ensures row { (word place : ℕ) (entry : Row) → slice_get table place ≡ Some entry →
        IsTrue (has_fixed word entry) → decode_of word ≡ Some (entry.insn word) }
    // A word is illegal exactly where it has those of none.
    ensures none { (word : ℕ) → (decode_of word ≡ None) ↔ (count_by (has_fixed word) table ≡ 0) }
{}

#[tactic(auto, unfolding(crate::specs::Decode::decode_of, crate::specs::Table::table))]
fn jalr(word: u32) -> Option<Insn>
    requires opcode { bits_of word 6 0 ≡ 0x67 }
    ensures row { result ≡ decode_of word }
{
    match funct3(word) {
        0 => Some(Insn::Jalr {
            rd: rd(word),
            rs1: rs1(word),
            imm: immediate_i(word),
        }),
        _ => None,
    }
}

#[tactic(auto, unfolding(crate::specs::Decode::decode_of, crate::specs::Table::table))]
fn branch(word: u32) -> Option<Insn>
    requires opcode { bits_of word 6 0 ≡ 0x63 }
    ensures row { result ≡ decode_of word }
{
    match funct3(word) {
        2 | 3 => None,
        kind => Some(Insn::Branch {
            kind,
            rs1: rs1(word),
            rs2: rs2(word),
            imm: immediate_b(word),
        }),
    }
}

#[tactic(auto, unfolding(crate::specs::Decode::decode_of, crate::specs::Table::table))]
fn load(word: u32) -> Option<Insn>
    requires opcode { bits_of word 6 0 ≡ 0x03 }
    ensures row { result ≡ decode_of word }
{
    match funct3(word) {
        kind @ (0 | 1 | 2 | 4 | 5) => Some(Insn::Load {
            kind,
            rd: rd(word),
            rs1: rs1(word),
            imm: immediate_i(word),
        }),
        _ => None,
    }
}

#[tactic(auto, unfolding(crate::specs::Decode::decode_of, crate::specs::Table::table))]
fn store(word: u32) -> Option<Insn>
    requires opcode { bits_of word 6 0 ≡ 0x23 }
    ensures row { result ≡ decode_of word }
{
    match funct3(word) {
        kind @ (0 | 1 | 2) => Some(Insn::Store {
            kind,
            rs1: rs1(word),
            rs2: rs2(word),
            imm: immediate_s(word),
        }),
        _ => None,
    }
}

/// A register with an immediate. The amount of a shift stands in the place of rs2.
#[tactic(auto, unfolding(crate::specs::Decode::decode_of, crate::specs::Table::table))]
fn op_imm(word: u32) -> Option<Insn>
    requires opcode { bits_of word 6 0 ≡ 0x13 }
    ensures row { result ≡ decode_of word }
{
    let kind = funct3(word);
    let (alt, imm) = match (kind, funct7(word)) {
        (1 | 5, 0x00) => (false, u32::from(rs2(word))),
        (5, 0x20) => (true, u32::from(rs2(word))),
        (1 | 5, _) => return None,
        _ => (false, immediate_i(word)),
    };
    Some(Insn::OpImm {
        kind,
        alt,
        rd: rd(word),
        rs1: rs1(word),
        imm,
    })
}

/// Two registers.
#[tactic(auto, unfolding(crate::specs::Decode::decode_of, crate::specs::Table::table))]
fn op(word: u32) -> Option<Insn>
    requires opcode { bits_of word 6 0 ≡ 0x33 }
    ensures row { result ≡ decode_of word }
{
    match (funct3(word), funct7(word)) {
        (kind, 0x00) => Some(Insn::Op {
            kind,
            alt: false,
            rd: rd(word),
            rs1: rs1(word),
            rs2: rs2(word),
        }),
        (kind @ (0 | 5), 0x20) => Some(Insn::Op {
            kind,
            alt: true,
            rd: rd(word),
            rs1: rs1(word),
            rs2: rs2(word),
        }),
        (kind, 0x01) => Some(Insn::MulDiv {
            kind,
            rd: rd(word),
            rs1: rs1(word),
            rs2: rs2(word),
        }),
        _ => None,
    }
}

#[tactic(auto, unfolding(crate::specs::Decode::decode_of, crate::specs::Table::table))]
fn fence(word: u32) -> Option<Insn>
    requires opcode { bits_of word 6 0 ≡ 0x0f }
    ensures row { result ≡ decode_of word }
{
    match funct3(word) {
        kind @ (0 | 1) => Some(Insn::Fence {
            rd: rd(word),
            rs1: rs1(word),
            upper: upper(word),
            fetch: kind == 1,
        }),
        _ => None,
    }
}

/// CSR instructions, and the four whole words.
#[tactic(auto, unfolding(crate::specs::Decode::decode_of, crate::specs::Table::table))]
fn system(word: u32) -> Option<Insn>
    requires opcode { bits_of word 6 0 ≡ 0x73 }
    ensures row { result ≡ decode_of word }
{
    match (funct3(word), word) {
        (0, 0x0000_0073) => Some(Insn::Ecall),
        (0, 0x0010_0073) => Some(Insn::Ebreak),
        (0, 0x3020_0073) => Some(Insn::Mret),
        (0, 0x1050_0073) => Some(Insn::Wfi),
        (0 | 4, _) => None,
        (kind, _) => Some(Insn::Csr {
            kind,
            rd: rd(word),
            rs1: rs1(word),
            csr: upper(word),
        }),
    }
}
