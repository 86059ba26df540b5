ghost use Rattle.std.specs.Prelude.{◌≡◌, true};
ghost use Rattle.std.specs.List.{list_all};
ghost use Rattle.hex.specs.Hex.{hex_digit_value, is_hex_digit};

use std::marker::Model;

/// Bytes that a packet writes, two hexadecimal digits for each. Contracts see the list of the
/// bytes.
#[derive(Drop)]
pub struct HexBytes<'a> {
    digits: &'a [u8],
}

impl<'a> Model for HexBytes<'a> {
    ghost use Rattle.std.specs.Prelude.{ℕ, List, [], unwrap_or, IsSome};
    ghost use Rattle.gdb_packets.specs.Hexadecimal.{bytes_in};

    ghost Value = { List ℕ };

    ghost view = { λ h. unwrap_or (bytes_in h.digits.now) [] };

    ghost invariant = { λ h. IsSome (bytes_in h.digits.now) };
}

impl<'a> HexBytes<'a> {
    ghost use Rattle.std.specs.Prelude.{◌≡◌, ◌==◌, ◌<◌, length, slice_get};
    ghost use Rattle.gdb_packets.specs.Hexadecimal.{bytes_in};

    /// The bytes that a word writes, if it is an even number of digits, of either case.
    pub(crate) fn read(digits: &'a [u8]) -> Option<HexBytes<'a>>
        ensures bytes { result ≡ bytes_in digits.now }
    {
        if digits.len() % 2 == 0 && are_digits(digits) {
            Some(HexBytes { digits })
        } else {
            None
        }
    }

    /// How many bytes there are.
    pub fn len(&self) -> usize
        ensures len { result ≡ length self.now }
    {
        self.digits.len() / 2
    }

    /// Whether there is none.
    pub fn is_empty(&self) -> bool
        ensures empty { result ≡ (length self.now == 0) }
    {
        self.digits.is_empty()
    }

    /// The byte at a place.
    pub fn at(&self, place: usize) -> u8
        requires place { place < length self.now }
        ensures byte { slice_get self.now place ≡ Some result }
    {
        let digits = self.digits;
        digit(digits[2 * place]) * 16 + digit(digits[2 * place + 1])
    }
}

/// Whether each byte is a digit.
fn are_digits(word: &[u8]) -> bool
    ensures digits { result ≡ list_all is_hex_digit word.now }
{
    word.iter().all(|byte| digit_in(*byte).is_some())
}

/// The value of a byte that is a digit.
fn digit(byte: u8) -> u8
    requires digit { is_hex_digit byte ≡ true }
    ensures value { hex_digit_value byte ≡ Some result }
{
    digit_in(byte).unwrap()
}

/// The value of a hexadecimal digit of either case.
fn digit_in(byte: u8) -> Option<u8>
    ensures value { result ≡ hex_digit_value byte }
{
    match byte {
        b'A'..=b'F' => Some(byte - b'A' + 10),
        b'a'..=b'f' => Some(byte - b'a' + 10),
        b'0'..=b'9' => Some(byte - b'0'),
        _ => None,
    }
}
