ghost use Rattle.std.specs.Prelude.{◌≡◌, ◌<◌, ◌+◌, ◌*◌, pos, ◌*ℤ◌, false};
ghost use Rattle.rv_exec.specs.Signed.{signed_of};
ghost use Rattle.rv_exec.specs.MulDiv.{product_value, overflows, signed_quotient, signed_remainder};
ghost use Rattle.rv_exec.specs.MulDiv.{quotient, remainder};
ghost use Rattle.rv_exec.specs.Laws.{AreHalves, IsDivision};

/// The law of products: MUL gives the lower half of each product of which MULH, MULHSU and MULHU
/// give the upper one. It computes nothing.
pub fn product_law(a: u32, b: u32)
    ensures signed { AreHalves (product_value 1 a b) (product_value 0 a b)
        (signed_of a *ℤ signed_of b) }
    ensures mixed { AreHalves (product_value 2 a b) (product_value 0 a b) (signed_of a *ℤ pos b) }
    ensures unsigned { AreHalves (product_value 3 a b) (product_value 0 a b) (pos a *ℤ pos b) }
{}

/// The law of division, for DIV and REM and for DIVU and REMU. It computes nothing.
pub fn division_law(a: u32, b: u32)
    ensures signed { 0 < b → overflows a b ≡ false →
        IsDivision (signed_of a) (signed_of b)
        (signed_of (signed_quotient a b)) (signed_of (signed_remainder a b)) }
    ensures unsigned { 0 < b
        → IsDivision (pos a) (pos b) (pos (quotient a b)) (pos (remainder a b)) }
{}
