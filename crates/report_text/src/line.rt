ghost use Rattle.std.specs.Prelude.{◌≡◌, ◌+◌, ◌≤◌, ◌<◌, [], ◌∷◌, ◌++◌, length, decimal};
ghost use Rattle.std.specs.Fmt.{signed_decimal};
ghost use Rattle.mono_model.specs.Report.{hex_digit, hex};

use arrayvec::ArrayVec;
use itoa::Buffer;
use std::marker::Model;

/// How many bytes a line has room for.
const ROOM: usize = 160;

/// A line of text while it is written, which takes no memory. Contracts see it as the list of its
/// bytes.
#[derive(Drop)]
pub struct Line {
    text: ArrayVec<u8, ROOM>,
}

impl Model for Line {
    ghost use Rattle.std.specs.Prelude.{ℕ, List};

    ghost Value = { List ℕ };

    ghost view = { λ l. l.text.items };
}

/// A hexadecimal digit in small letters.
fn hex_digit(value: u8) -> u8
    requires digit { value < 16 }
    ensures digit { result ≡ hex_digit value }
{
    if value < 10 {
        b'0' + value
    } else {
        b'a' - 10 + value
    }
}

impl Line {
    /// A line with no byte.
    pub fn new() -> Line
        ensures empty { result ≡ [] }
    {
        Line {
            text: ArrayVec::new(),
        }
    }

    /// The bytes of the line.
    pub fn as_slice(&self) -> &[u8]
        ensures same { result.now ≡ self.now }
    {
        self.text.as_slice()
    }

    /// Appends a byte.
    pub fn byte(&mut self, byte: u8)
        requires room { length self.old < ROOM }
        ensures text { self.new ≡ self.old ++ byte ∷ [] }
        ensures len { length self.new ≡ length self.old + 1 }
    {
        self.text.push(byte);
    }

    /// Appends bytes.
    pub fn bytes(&mut self, bytes: &[u8])
        requires room { length self.old + length bytes.now ≤ ROOM }
        ensures text { self.new ≡ self.old ++ bytes.now }
        ensures len { length self.new ≡ length self.old + length bytes.now }
    {
        self.text.try_extend_from_slice(bytes).unwrap();
    }

    /// Appends a number in decimal digits.
    pub fn number(&mut self, number: u64)
        requires room { length self.old + 20 ≤ ROOM }
        ensures text { self.new ≡ self.old ++ decimal number }
        ensures len { length self.new ≤ length self.old + 20 }
    {
        let mut buffer = Buffer::new();
        self.bytes(buffer.format(number).as_bytes());
    }

    /// Appends a number in decimal digits, with a minus before a negative one.
    pub fn signed(&mut self, number: i64)
        requires room { length self.old + 20 ≤ ROOM }
        ensures text { self.new ≡ self.old ++ signed_decimal number }
        ensures len { length self.new ≤ length self.old + 20 }
    {
        let mut buffer = Buffer::new();
        self.bytes(buffer.format(number).as_bytes());
    }

    /// Appends the lowest `digits` hexadecimal digits of a number.
    pub fn hex(&mut self, digits: u32, number: u64)
        requires room { length self.old + digits ≤ ROOM }
        ensures text { self.new ≡ self.old ++ hex digits number }
        ensures len { length self.new ≡ length self.old + digits }
    {
        if digits > 0 {
            self.hex(digits - 1, number / 16);
            self.byte(hex_digit((number % 16) as u8));
        }
    }
}
