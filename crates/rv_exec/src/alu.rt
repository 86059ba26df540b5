ghost use Rattle.std.specs.Prelude.{◌≡◌};
ghost use Rattle.rv_exec.specs.Alu.{shifted_left, shifted_right, shifted_right_signed};
ghost use Rattle.rv_exec.specs.Alu.{alu_value};

/// What an integer computational instruction writes; `alt` says that funct7 is 0x20.
#[inline(always)]
pub fn alu(kind: u8, alt: bool, a: u32, b: u32) -> u32
    ensures value { result ≡ alu_value kind alt a b }
{
    match kind {
        0 => {
            if alt {
                a.wrapping_sub(b)
            } else {
                a.wrapping_add(b)
            }
        }
        1 => shift_left(a, b),
        2 => u32::from(a.cast_signed() < b.cast_signed()),
        3 => u32::from(a < b),
        4 => a ^ b,
        5 => {
            if alt {
                shift_right_signed(a, b)
            } else {
                shift_right(a, b)
            }
        }
        6 => a | b,
        _ => a & b,
    }
}

fn shift_left(a: u32, amount: u32) -> u32
    ensures value { result ≡ shifted_left a amount }
{
    a << (amount & 31)
}

fn shift_right(a: u32, amount: u32) -> u32
    ensures value { result ≡ shifted_right a amount }
{
    a >> (amount & 31)
}

/// The shift that copies the sign bit.
fn shift_right_signed(a: u32, amount: u32) -> u32
    ensures value { result ≡ shifted_right_signed a amount }
{
    (a.cast_signed() >> (amount & 31)).cast_unsigned()
}
