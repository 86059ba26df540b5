ghost use Rattle.std.specs.Prelude.{◌≡◌, ◌==◌, option_map, position};
ghost use Rattle.gdb_packets.specs.Hexadecimal.{number_in};
ghost use Rattle.gdb_packets.specs.Packet.{numbers_in, parted};

/// How many digits a number has at most.
const DIGITS: usize = 16;

/// A number: one to sixteen hexadecimal digits of either case.
pub(crate) fn number_in(word: &[u8]) -> Option<u64>
    ensures number { result ≡ number_in word.now }
{
    if word.is_empty() || DIGITS < word.len() {
        return None;
    }
    let mut number = 0;
    for byte in word {
        let digit = char::from(*byte).to_digit(16)?;
        number = number * 16 + u64::from(digit);
    }
    Some(number)
}

/// What stands before and after the first such byte.
pub(crate) fn parted(mark: u8, word: &[u8]) -> Option<(&[u8], &[u8])>
    ensures parts { option_map (λ parts. (parts.0.now, parts.1.now)) result ≡ parted mark word.now }
{
    match place_of(mark, word) {
        Some(place) => Some((&word[..place], &word[place + 1..])),
        None => None,
    }
}

/// The place of the first such byte.
fn place_of(mark: u8, word: &[u8]) -> Option<usize>
    ensures place { result ≡ position (λ byte. byte == mark) word.now }
{
    word.iter().position(|byte| *byte == mark)
}

/// Two numbers with a comma between them.
pub(crate) fn numbers_in(word: &[u8]) -> Option<(u64, u64)>
    ensures numbers { result ≡ numbers_in word.now }
{
    let (first, second) = parted(b',', word)?;
    Some((number_in(first)?, number_in(second)?))
}
