ghost use Rattle.std.specs.Prelude.{◌≡◌, pos, ◌*ℤ◌, ◌≤ℤ◌, ◌<ℤ◌, ◌^◌, neg_ℤ};
ghost use Rattle.rv_exec.specs.Signed.{signed_of};
ghost use Rattle.rv_exec.specs.MulDiv.{upper_half, overflows, signed_quotient, signed_remainder};
ghost use Rattle.rv_exec.specs.MulDiv.{quotient, remainder, muldiv_value};

/// What an instruction of the M extension writes.
pub fn muldiv(kind: u8, a: u32, b: u32) -> u32
    ensures value { result ≡ muldiv_value kind a b }
{
    match kind {
        0 => a.wrapping_mul(b),
        1 => mulh(a, b),
        2 => mulhsu(a, b),
        3 => mulhu(a, b),
        4 => div(a, b),
        5 => divu(a, b),
        6 => rem(a, b),
        _ => remu(a, b),
    }
}

/// The upper half of signed by signed. It stays a call, as the next one: inline, the operands of
/// each instruction would be widened for it.
#[inline(never)]
fn mulh(a: u32, b: u32) -> u32
    ensures value { result ≡ upper_half (signed_of a *ℤ signed_of b) }
{
    upper(widen(a) * widen(b))
}

/// The upper half of signed by unsigned.
#[inline(never)]
fn mulhsu(a: u32, b: u32) -> u32
    ensures value { result ≡ upper_half (signed_of a *ℤ pos b) }
{
    upper(widen(a) * i64::from(b))
}

/// The upper half of unsigned by unsigned.
fn mulhu(a: u32, b: u32) -> u32
    ensures value { result ≡ upper_half (pos a *ℤ pos b) }
{
    ((u64::from(a) * u64::from(b)) >> 32) as u32
}

/// A word read as a signed number, with room for a product.
fn widen(a: u32) -> i64
    ensures value { result ≡ signed_of a }
    ensures low { neg_ℤ (pos (2 ^ 31)) ≤ℤ result }
    ensures high { result <ℤ pos (2 ^ 31) }
{
    i64::from(a.cast_signed())
}

/// The upper 32 bits of a product.
fn upper(product: i64) -> u32
    ensures value { result ≡ upper_half product }
{
    (product.cast_unsigned() >> 32) as u32
}

/// -2^31 by -1, whose quotient is no signed word.
fn is_overflow(a: u32, b: u32) -> bool
    ensures overflow { result ≡ overflows a b }
{
    a == 1 << 31 && b == u32::MAX
}

/// Signed division, rounded toward zero.
fn div(a: u32, b: u32) -> u32
    ensures value { result ≡ signed_quotient a b }
{
    if b == 0 {
        u32::MAX
    } else if is_overflow(a, b) {
        i32::MIN.cast_unsigned()
    } else {
        (a.cast_signed() / b.cast_signed()).cast_unsigned()
    }
}

/// What signed division leaves, with the dividend's sign.
fn rem(a: u32, b: u32) -> u32
    ensures value { result ≡ signed_remainder a b }
{
    if b == 0 {
        a
    } else if is_overflow(a, b) {
        0
    } else {
        (a.cast_signed() % b.cast_signed()).cast_unsigned()
    }
}

/// Unsigned division.
fn divu(a: u32, b: u32) -> u32
    ensures value { result ≡ quotient a b }
{
    if b == 0 { u32::MAX } else { a / b }
}

/// What unsigned division leaves.
fn remu(a: u32, b: u32) -> u32
    ensures value { result ≡ remainder a b }
{
    if b == 0 { a } else { a % b }
}
