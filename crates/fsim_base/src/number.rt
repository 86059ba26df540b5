ghost use Rattle.std.specs.Prelude.{◌≡◌, ℕ, ◌≤◌};
ghost use Rattle.fsim_base.specs.Number.{bits_of, sign_extended, wrap_sum};

/// The bits `high` down to `low` of a word, as a number.
pub fn bits(word: u32, high: u32, low: u32) -> u32
    requires ordered { low ≤ high }
    requires within { high ≤ 31 }
    ensures field { result ≡ bits_of word high low }
{
    ((u64::from(word) >> low) % (1 << (high + 1 - low))) as u32
}

/// The low `bits` bits of a number, read as two's complement and widened to 32 bits.
pub fn sign_extend(value: u32, bits: u32) -> u32
    requires some { 1 ≤ bits }
    requires within { bits ≤ 32 }
    ensures extended { result ≡ sign_extended value bits }
{
    let low = u64::from(value) % (1 << bits);
    if low < 1 << (bits - 1) {
        low as u32
    } else {
        (low + ((1 << 32) - (1 << bits))) as u32
    }
}

/// The sum of two numbers modulo 2^32.
pub fn wrap_add(a: u32, b: u32) -> u32
    ensures sum { result ≡ wrap_sum a b }
{
    a.wrapping_add(b)
}

#[cfg(test)]
mod tests {
    use super::*;

    /// Fields and immediates of words as the GNU assembler lists them.
    #[test]
    fn fields_of_assembled_words(rt: HostRuntime) {
        // lui x5, 0x100; addi x7, x7, 0x555; sw x6, 0(x12); beq x5, x6, . - 8.
        for (word, high, low, want) in [
            (0x0010_02b7, 6, 0, 0x37),
            (0x0010_02b7, 11, 7, 5),
            (0x0010_02b7, 31, 12, 0x100),
            (0x5553_8393, 31, 20, 0x555),
            (0x0066_2023, 24, 20, 6),
            (0xfe62_8ce3, 31, 31, 1),
            (0xfe62_8ce3, 31, 0, 0xfe62_8ce3),
        ] {
            assert_eq!(rt;
                bits(word, high, low),
                want,
                "bits {high} to {low} of {word:x}"
            );
        }
    }

    #[test]
    fn negative_immediates(rt: HostRuntime) {
        for (value, width, want) in [
            (0x7ff, 12, 0x7ff),
            (0x800, 12, 0xffff_f800),
            (0xfff, 12, 0xffff_ffff),
            (0x1ff8, 13, 0xffff_fff8),
            (1, 1, 0xffff_ffff),
            (0x8000_0000, 32, 0x8000_0000),
            (0xabcd_ef80, 8, 0xffff_ff80),
        ] {
            assert_eq!(rt;
                sign_extend(value, width),
                want,
                "{value:x} of {width} bits"
            );
        }
    }
}
