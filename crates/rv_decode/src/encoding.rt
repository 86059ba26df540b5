ghost use Rattle.std.specs.Prelude.{◌≡◌, ◌<◌, ◌≤◌, ◌^◌, ◌*◌, ◌+◌, ℕ, Some};
ghost use Rattle.rv_decode.specs.Decode.{decode_of};
ghost use Rattle.rv_decode.specs.Encode.{encode_of, r_word, i_word, s_word, b_word, u_word, j_word};
ghost use Rattle.rv_decode.specs.Fits.{Fits};

use crate::insn::Insn;
use fsim_base::bits;

/// The word that spells an instruction: `decode` gives the instruction back, and no other word
/// does.
#[tactic(auto, using(crate::proofs::RoundTrip::encoded_decoded, crate::proofs::Kept::decoded_encoded), unfolding(crate::specs::Encode::encode_of))]
pub fn encode(insn: Insn) -> u32
    requires fits { Fits insn }
    ensures word { result ≡ encode_of insn }
    ensures decoded { decode_of result ≡ Some insn }
    ensures only_word { (word : ℕ) → word < 2 ^ 32 → decode_of word ≡ Some insn → word ≡ result }
{
    match insn {
        Insn::Lui { rd, imm } => word_u(0x37, rd, imm),
        Insn::Auipc { rd, imm } => word_u(0x17, rd, imm),
        Insn::Jal { rd, imm } => word_j(0x6f, rd, imm),
        Insn::Jalr { rd, rs1, imm } => word_i(0x67, rd, 0, rs1, bits(imm, 11, 0)),
        Insn::Branch {
            kind,
            rs1,
            rs2,
            imm,
        } => word_b(0x63, kind, rs1, rs2, imm),
        Insn::Load { kind, rd, rs1, imm } => word_i(0x03, rd, kind, rs1, bits(imm, 11, 0)),
        Insn::Store {
            kind,
            rs1,
            rs2,
            imm,
        } => word_s(0x23, kind, rs1, rs2, imm),
        Insn::OpImm {
            kind,
            alt: false,
            rd,
            rs1,
            imm,
        } => word_i(0x13, rd, kind, rs1, bits(imm, 11, 0)),
        Insn::OpImm {
            kind,
            alt: true,
            rd,
            rs1,
            imm,
        } => word_r(0x13, rd, kind, rs1, imm as u8, 0x20),
        Insn::Op {
            kind,
            alt,
            rd,
            rs1,
            rs2,
        } => word_r(0x33, rd, kind, rs1, rs2, if alt { 0x20 } else { 0x00 }),
        Insn::MulDiv { kind, rd, rs1, rs2 } => word_r(0x33, rd, kind, rs1, rs2, 0x01),
        Insn::Fence {
            rd,
            rs1,
            upper,
            fetch,
        } => word_i(0x0f, rd, u8::from(fetch), rs1, u32::from(upper)),
        Insn::Ecall => 0x0000_0073,
        Insn::Ebreak => 0x0010_0073,
        Insn::Mret => 0x3020_0073,
        Insn::Wfi => 0x1050_0073,
        Insn::Csr { kind, rd, rs1, csr } => word_i(0x73, rd, kind, rs1, u32::from(csr)),
    }
}

fn word_r(opcode: u32, rd: u8, funct3: u8, rs1: u8, rs2: u8, funct7: u32) -> u32
    requires opcode { opcode < 2 ^ 7 }
    requires rd { rd < 32 }
    requires funct3 { funct3 < 8 }
    requires rs1 { rs1 < 32 }
    requires rs2 { rs2 < 32 }
    requires funct7 { funct7 < 2 ^ 7 }
    ensures word { result ≡ r_word opcode rd funct3 rs1 rs2 funct7 }
{
    word_i(opcode, rd, funct3, rs1, funct7 << 5 | u32::from(rs2))
}

fn word_i(opcode: u32, rd: u8, funct3: u8, rs1: u8, upper: u32) -> u32
    requires opcode { opcode < 2 ^ 7 }
    requires rd { rd < 32 }
    requires funct3 { funct3 < 8 }
    requires rs1 { rs1 < 32 }
    requires upper { upper < 2 ^ 12 }
    ensures word { result ≡ i_word opcode rd funct3 rs1 upper }
{
    let sources = upper << 5 | u32::from(rs1);
    let kind = sources << 3 | u32::from(funct3);
    word_u(opcode, rd, kind << 12)
}

fn word_s(opcode: u32, funct3: u8, rs1: u8, rs2: u8, imm: u32) -> u32
    requires opcode { opcode < 2 ^ 7 }
    requires funct3 { funct3 < 8 }
    requires rs1 { rs1 < 32 }
    requires rs2 { rs2 < 32 }
    ensures word { result ≡ s_word opcode funct3 rs1 rs2 imm }
{
    let low = bits(imm, 4, 0) as u8;
    word_r(opcode, low, funct3, rs1, rs2, bits(imm, 11, 5))
}

fn word_b(opcode: u32, funct3: u8, rs1: u8, rs2: u8, imm: u32) -> u32
    requires opcode { opcode < 2 ^ 7 }
    requires funct3 { funct3 < 8 }
    requires rs1 { rs1 < 32 }
    requires rs2 { rs2 < 32 }
    ensures word { result ≡ b_word opcode funct3 rs1 rs2 imm }
{
    let low = bits(imm, 4, 1) << 1 | bits(imm, 11, 11);
    let high = bits(imm, 12, 12) << 6 | bits(imm, 10, 5);
    word_r(opcode, low as u8, funct3, rs1, rs2, high)
}

/// The immediate's twenty upper bits stay where they are.
fn word_u(opcode: u32, rd: u8, imm: u32) -> u32
    requires opcode { opcode < 2 ^ 7 }
    requires rd { rd < 32 }
    ensures word { result ≡ u_word opcode rd imm }
{
    bits(imm, 31, 12) << 12 | (u32::from(rd) << 7 | opcode)
}

fn word_j(opcode: u32, rd: u8, imm: u32) -> u32
    requires opcode { opcode < 2 ^ 7 }
    requires rd { rd < 32 }
    ensures word { result ≡ j_word opcode rd imm }
{
    let high = bits(imm, 20, 20) << 10 | bits(imm, 10, 1);
    let low = bits(imm, 11, 11) << 8 | bits(imm, 19, 12);
    word_u(opcode, rd, (high << 9 | low) << 12)
}
