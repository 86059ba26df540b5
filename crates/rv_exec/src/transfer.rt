ghost use Rattle.std.specs.Prelude.{◌≡◌};
ghost use Rattle.rv_exec.specs.Load.{load_width, load_extends_sign, store_width, low_bytes};
ghost use Rattle.rv_exec.specs.Load.{loaded_value};

use fsim_base::{Width, sign_extend};

/// How much a load reads.
pub fn width_of_load(kind: u8) -> Width
    ensures width { result ≡ load_width kind }
{
    match kind {
        0 | 4 => Width::Byte,
        2 => Width::Word,
        _ => Width::Half,
    }
}

/// Whether a load extends the sign of what it reads.
pub fn extends_sign(kind: u8) -> bool
    ensures sign { result ≡ load_extends_sign kind }
{
    kind < 3
}

/// How much a store writes.
pub fn width_of_store(kind: u8) -> Width
    ensures width { result ≡ store_width kind }
{
    match kind {
        0 => Width::Byte,
        1 => Width::Half,
        _ => Width::Word,
    }
}

/// The low bytes of a value, with zeros above them.
pub fn cut(value: u32, width: Width) -> u32
    ensures value { result ≡ low_bytes value width }
{
    match width {
        Width::Byte => value % 256,
        Width::Half => value % 65536,
        Width::Word => value,
    }
}

/// What a load writes to its register: the low bytes of `raw`, with their sign or zeros before
/// them.
#[inline(always)]
pub fn extend(raw: u32, width: Width, signed: bool) -> u32
    ensures value { result ≡ loaded_value width signed raw }
{
    if signed {
        sign_extend(raw, 8 * width.bytes())
    } else {
        cut(raw, width)
    }
}
