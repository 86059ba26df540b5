//! The fields of a word and the immediates that they spell.

ghost use Rattle.std.specs.Prelude.{◌≡◌};
ghost use Rattle.fsim_base.specs.Number.{bits_of};
ghost use Rattle.rv_decode.specs.Field.{rd_of, rs1_of, rs2_of, upper_of, i_immediate, s_immediate};
ghost use Rattle.rv_decode.specs.Field.{b_immediate, u_immediate, j_immediate};

use fsim_base::{bits, sign_extend};

pub(crate) fn opcode(word: u32) -> u32
    ensures field { result ≡ bits_of word 6 0 }
{
    bits(word, 6, 0)
}

pub(crate) fn rd(word: u32) -> u8
    ensures field { result ≡ rd_of word }
{
    bits(word, 11, 7) as u8
}

pub(crate) fn funct3(word: u32) -> u8
    ensures field { result ≡ bits_of word 14 12 }
{
    bits(word, 14, 12) as u8
}

pub(crate) fn rs1(word: u32) -> u8
    ensures field { result ≡ rs1_of word }
{
    bits(word, 19, 15) as u8
}

pub(crate) fn rs2(word: u32) -> u8
    ensures field { result ≡ rs2_of word }
{
    bits(word, 24, 20) as u8
}

pub(crate) fn funct7(word: u32) -> u32
    ensures field { result ≡ bits_of word 31 25 }
{
    bits(word, 31, 25)
}

/// The twelve upper bits.
pub(crate) fn upper(word: u32) -> u16
    ensures field { result ≡ upper_of word }
{
    bits(word, 31, 20) as u16
}

pub(crate) fn immediate_i(word: u32) -> u32
    ensures immediate { result ≡ i_immediate word }
{
    sign_extend(bits(word, 31, 20), 12)
}

pub(crate) fn immediate_s(word: u32) -> u32
    ensures immediate { result ≡ s_immediate word }
{
    sign_extend(bits(word, 31, 25) << 5 | bits(word, 11, 7), 12)
}

pub(crate) fn immediate_b(word: u32) -> u32
    ensures immediate { result ≡ b_immediate word }
{
    let high = bits(word, 31, 31) << 1 | bits(word, 7, 7);
    let low = bits(word, 30, 25) << 4 | bits(word, 11, 8);
    sign_extend(high << 11 | low << 1, 13)
}

pub(crate) fn immediate_u(word: u32) -> u32
    ensures immediate { result ≡ u_immediate word }
{
    bits(word, 31, 12) << 12
}

pub(crate) fn immediate_j(word: u32) -> u32
    ensures immediate { result ≡ j_immediate word }
{
    let high = bits(word, 31, 31) << 8 | bits(word, 19, 12);
    let low = bits(word, 20, 20) << 10 | bits(word, 30, 21);
    sign_extend(high << 12 | low << 1, 21)
}
