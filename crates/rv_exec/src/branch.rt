ghost use Rattle.std.specs.Prelude.{◌≡◌};
ghost use Rattle.rv_exec.specs.Branch.{branch_taken};

/// Whether a conditional branch is taken.
#[inline(always)]
pub fn is_taken(kind: u8, a: u32, b: u32) -> bool
    ensures taken { result ≡ branch_taken kind a b }
{
    match kind {
        0 => a == b,
        1 => a != b,
        4 => a.cast_signed() < b.cast_signed(),
        5 => a.cast_signed() >= b.cast_signed(),
        6 => a < b,
        _ => a >= b,
    }
}
