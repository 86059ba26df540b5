ghost use Rattle.std.specs.Fmt.{digit_glyph};
ghost use Rattle.std.specs.Prelude.{◌≡◌, ◌<◌, false, slice_index};
ghost use Rattle.hex.specs.Hex.{lower_digits};
ghost use Rattle.gdb_packets.specs.Frame.{checksum};

use crate::packet::CONTENT_LIMIT;
use arrayvec::ArrayVec;
use std::marker::Model;

/// How many bytes the frame of a packet has beside its content.
const AROUND: usize = 4;

/// How many bytes a frame has at most.
const ROOM: usize = CONTENT_LIMIT + AROUND;

/// The content of a packet while it is written, which takes no memory. Contracts see the list of
/// its bytes.
#[derive(Drop)]
pub struct Reply {
    /// `$`, and the content so far.
    text: ArrayVec<u8, ROOM>,
}

impl Model for Reply {
    ghost use Rattle.std.specs.Prelude.{ℕ, List, drop};
    ghost use Rattle.gdb_packets.specs.Frame.{IsOpen};

    ghost Value = { List ℕ };

    ghost view = { λ r. drop 1 r.text.items };

    ghost invariant = { λ r. IsOpen r.text.items };
}

/// A packet as it is sent. Contracts see the list of its bytes.
#[derive(Drop)]
pub struct Frame {
    text: ArrayVec<u8, ROOM>,
}

impl Model for Frame {
    ghost use Rattle.std.specs.Prelude.{ℕ, List};

    ghost Value = { List ℕ };

    ghost view = { λ f. f.text.items };
}

impl Frame {
    ghost use Rattle.std.specs.Prelude.{◌≡◌};

    /// The bytes of the packet.
    pub fn as_slice(&self) -> &[u8]
        ensures same { result.now ≡ self.now }
    {
        self.text.as_slice()
    }
}

impl Reply {
    ghost use Rattle.std.specs.Prelude.{◌≡◌, ◌≤◌, ◌<◌, ◌+◌, ◌*◌, ◌++◌, [], ◌∷◌, length, false};
    ghost use Rattle.std.specs.Fmt.{digits};
    ghost use Rattle.hex.specs.Hex.{encode_lower};
    ghost use Rattle.gdb_packets.specs.Frame.{frame};
    ghost use Rattle.gdb_packets.specs.Hexadecimal.{little};

    /// A reply with no byte.
    pub fn new() -> Reply
        ensures empty { result ≡ [] }
    {
        let mut text = ArrayVec::new();
        text.push(b'$');
        Reply { text }
    }

    /// Appends a byte.
    pub fn byte(&mut self, byte: u8)
        requires room { length self.old < CONTENT_LIMIT }
        ensures content { self.new ≡ self.old ++ byte ∷ [] }
        ensures len { length self.new ≡ length self.old + 1 }
    {
        self.text.push(byte);
    }

    /// Appends bytes.
    pub fn bytes(&mut self, bytes: &[u8])
        requires room { length self.old + length bytes.now ≤ CONTENT_LIMIT }
        ensures content { self.new ≡ self.old ++ bytes.now }
        ensures len { length self.new ≡ length self.old + length bytes.now }
    {
        self.text.try_extend_from_slice(bytes).unwrap();
    }

    /// Appends the two digits of a byte.
    pub fn hex(&mut self, byte: u8)
        requires room { length self.old + 2 ≤ CONTENT_LIMIT }
        ensures content { self.new ≡ self.old ++ encode_lower (byte ∷ []) }
        ensures len { length self.new ≡ length self.old + 2 }
    {
        self.byte(digit(byte / 16));
        self.byte(digit(byte % 16));
    }

    /// Appends the two digits of each byte.
    pub fn hex_bytes(&mut self, bytes: &[u8])
        requires room { length self.old + 2 * length bytes.now ≤ CONTENT_LIMIT }
        ensures content { self.new ≡ self.old ++ encode_lower bytes.now }
        ensures len { length self.new ≡ length self.old + 2 * length bytes.now }
    {
        for byte in bytes {
            self.hex(*byte);
        }
    }

    /// Appends a value of 32 bits in two digits for each byte, the lowest byte first.
    pub fn little(&mut self, value: u32)
        requires room { length self.old + 8 ≤ CONTENT_LIMIT }
        ensures content { self.new ≡ self.old ++ little value }
        ensures len { length self.new ≡ length self.old + 8 }
    {
        self.hex_bytes(&value.to_le_bytes());
    }

    /// Appends a number in hexadecimal digits, without leading zeros.
    pub fn number(&mut self, number: u64)
        requires room { length self.old + 16 ≤ CONTENT_LIMIT }
        ensures content { self.new ≡ self.old ++ digits 16 false number }
        ensures len { length self.new ≤ length self.old + 16 }
    {
        self.digits(number);
    }

    /// Appends the digits of a number.
    fn digits(&mut self, number: u64)
        requires room { length self.old + length (digits 16 false number) ≤ CONTENT_LIMIT }
        ensures content { self.new ≡ self.old ++ digits 16 false number }
    {
        if 16 <= number {
            self.digits(number / 16);
        }
        self.byte(digit((number % 16) as u8));
    }

    /// The packet: the content in its frame.
    pub fn finish(self) -> Frame
        ensures frame { result ≡ frame self }
    {
        let Reply { mut text } = self;
        let sum = checksum(&text.as_slice()[1..]);
        text.push(b'#');
        text.push(digit(sum / 16));
        text.push(digit(sum % 16));
        Frame { text }
    }
}

/// The sum of bytes, modulo 256.
fn checksum(content: &[u8]) -> u8
    ensures sum { result ≡ checksum content.now }
{
    let mut sum: u8 = 0;
    for byte in content {
        sum = sum.wrapping_add(*byte);
    }
    sum
}

/// The lower-case hexadecimal digit of a value.
fn digit(value: u8) -> u8
    requires digit { value < 16 }
    ensures digit { result ≡ slice_index lower_digits value }
    ensures glyph { result ≡ digit_glyph false value }
{
    if value < 10 {
        b'0' + value
    } else {
        b'a' - 10 + value
    }
}
