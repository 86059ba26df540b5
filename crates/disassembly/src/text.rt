ghost use Rattle.std.specs.Prelude.{◌≡◌, ◌+◌, ◌≤◌, ◌<◌, [], ◌∷◌, ◌++◌, length, decimal, false};
ghost use Rattle.std.specs.Fmt.{digit_glyph};
ghost use Rattle.rv_decode.specs.Fits.{IsImmediate};
ghost use Rattle.disassembly.specs.Number.{hex, signed};

use arrayvec::ArrayVec;
use itoa::Buffer;
use std::marker::Model;

/// How many bytes the longest text has: `csrrwi x31,mcountinhibit,31`.
pub const LONGEST: usize = 27;

/// The text of an instruction word, which takes no memory. Contracts see it as the list of its
/// bytes.
#[derive(Drop)]
pub struct WordText {
    bytes: ArrayVec<u8, LONGEST>,
}

impl Model for WordText {
    ghost use Rattle.std.specs.Prelude.{ℕ, List};

    ghost Value = { List ℕ };

    ghost view = { λ t. t.bytes.items };
}

/// A hexadecimal digit in small letters.
fn hex_digit(value: u8) -> u8
    requires digit { value < 16 }
    ensures digit { result ≡ digit_glyph false value }
{
    if value < 10 {
        b'0' + value
    } else {
        b'a' - 10 + value
    }
}

impl WordText {
    /// No text yet.
    pub fn new() -> WordText
        ensures empty { result ≡ [] }
    {
        WordText {
            bytes: ArrayVec::new(),
        }
    }

    /// The bytes of the text.
    pub fn as_slice(&self) -> &[u8]
        ensures same { result.now ≡ self.now }
    {
        self.bytes.as_slice()
    }

    /// Drops all bytes.
    pub(crate) fn clear(&mut self)
        ensures empty { self.new ≡ [] }
    {
        self.bytes.clear();
    }

    /// Appends a byte.
    pub(crate) fn byte(&mut self, byte: u8)
        requires room { length self.old < LONGEST }
        ensures text { self.new ≡ self.old ++ byte ∷ [] }
        ensures len { length self.new ≡ length self.old + 1 }
    {
        self.bytes.push(byte);
    }

    /// Appends bytes.
    pub(crate) fn bytes(&mut self, bytes: &[u8])
        requires room { length self.old + length bytes.now ≤ LONGEST }
        ensures text { self.new ≡ self.old ++ bytes.now }
        ensures len { length self.new ≡ length self.old + length bytes.now }
    {
        self.bytes.try_extend_from_slice(bytes).unwrap();
    }

    /// Appends a number below 100 in decimal digits.
    #[tactic(auto, using(crate::proofs::Signed::length_small))]
    pub(crate) fn decimal(&mut self, number: u8)
        requires small { number < 100 }
        requires room { length self.old + 2 ≤ LONGEST }
        ensures text { self.new ≡ self.old ++ decimal number }
        ensures len { length self.new ≤ length self.old + 2 }
    {
        let mut buffer = Buffer::new();
        self.bytes(buffer.format(number).as_bytes());
    }

    /// Appends an immediate of 12 bits, sign-extended, in decimal digits.
    #[tactic(auto, using(crate::proofs::Signed::length_signed))]
    pub(crate) fn signed(&mut self, imm: u32)
        requires imm { IsImmediate imm 12 }
        requires room { length self.old + 5 ≤ LONGEST }
        ensures text { self.new ≡ self.old ++ signed imm }
        ensures len { length self.new ≤ length self.old + 5 }
    {
        let mut buffer = Buffer::new();
        self.bytes(buffer.format(imm.cast_signed()).as_bytes());
    }

    /// Appends a number in hexadecimal digits, with zeros before them up to `width`.
    #[tactic(auto, using(crate::proofs::Hex::hex_last, crate::proofs::Hex::hex_next))]
    pub(crate) fn hex(&mut self, width: u32, number: u32)
        requires room { length self.old + length (hex width number) ≤ LONGEST }
        ensures text { self.new ≡ self.old ++ hex width number }
        ensures len { length self.new ≡ length self.old + length (hex width number) }
    {
        if number >= 16 || width > 1 {
            self.hex(width.saturating_sub(1), number / 16);
        }
        self.byte(hex_digit((number % 16) as u8));
    }
}
