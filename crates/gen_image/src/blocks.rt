ghost use Rattle.std.specs.Prelude.{◌≡◌, ◌<◌, get_or, map};
ghost use Rattle.rv_decode.specs.Encode.{encode_of};
ghost use Rattle.gen_image.specs.Assembly.{add};
ghost use Rattle.gen_image.specs.Soak.{first_value, operation, operations, skip, memory, turns};
ghost use Rattle.gen_image.specs.Soak.{call};

use crate::assembly::{
    add, addi, andi, bne, divu, jal, jalr, lw, minus, mul, or, sll, sltu, sub, sw, xor,
};
use crate::draws::{draw, register};
use rand_pcg::Lcg64Xsh32;

/// The first value of a register.
pub fn first_value(x: u8, rng: &mut Lcg64Xsh32) -> [u32; 1]
    requires register { x < 32 }
    ensures code { result ≡ map encode_of (first_value x rng.old).0 }
    ensures next { rng.new ≡ (first_value x rng.old).1 }
{
    [addi(x, 0, draw(rng) % 2048)]
}

/// One operation on drawn registers.
pub fn operation(rng: &mut Lcg64Xsh32) -> [u32; 1]
    ensures code { result ≡ map encode_of (operation rng.old).0 }
    ensures next { rng.new ≡ (operation rng.old).1 }
{
    let op = draw(rng) % 8;
    let d = register(rng);
    let a = register(rng);
    let b = register(rng);
    [operation_word(op, d, a, b)]
}

/// The operation of this number, from 0 to 7.
fn operation_word(op: u32, d: u8, a: u8, b: u8) -> u32
    requires op { op < 8 }
    requires d { d < 32 }
    requires a { a < 32 }
    requires b { b < 32 }
    ensures word { result ≡ encode_of (get_or operations op add d a b) }
{
    match op {
        0 => add(d, a, b),
        1 => sub(d, a, b),
        2 => xor(d, a, b),
        3 => or(d, a, b),
        4 => sltu(d, a, b),
        5 => mul(d, a, b),
        6 => divu(d, a, b),
        _ => sll(d, a, b),
    }
}

/// A branch that depends on a drawn register.
pub fn skip(rng: &mut Lcg64Xsh32) -> [u32; 3]
    ensures code { result ≡ map encode_of (skip rng.old).0 }
    ensures next { rng.new ≡ (skip rng.old).1 }
{
    let a = register(rng);
    let amount = draw(rng) % 2048;
    [andi(13, a, 1), bne(13, 0, 8), addi(a, a, amount)]
}

/// A store, and a load behind it.
pub fn memory(rng: &mut Lcg64Xsh32) -> [u32; 4]
    ensures code { result ≡ map encode_of (memory rng.old).0 }
    ensures next { rng.new ≡ (memory rng.old).1 }
{
    let a = register(rng);
    let b = register(rng);
    let c = register(rng);
    [
        andi(13, a, 2044),
        add(13, 13, 20),
        sw(b, 0, 13),
        lw(c, 0, 13),
    ]
}

/// A loop of one to eight turns.
pub fn turns(rng: &mut Lcg64Xsh32) -> [u32; 4]
    ensures code { result ≡ map encode_of (turns rng.old).0 }
    ensures next { rng.new ≡ (turns rng.old).1 }
{
    let count = 1 + draw(rng) % 8;
    let a = register(rng);
    let b = register(rng);
    [
        addi(14, 0, count),
        add(a, a, b),
        addi(14, 14, minus(1)),
        bne(14, 0, minus(8)),
    ]
}

/// A call, and its return.
pub fn call(rng: &mut Lcg64Xsh32) -> [u32; 4]
    ensures code { result ≡ map encode_of (call rng.old).0 }
    ensures next { rng.new ≡ (call rng.old).1 }
{
    let a = register(rng);
    let b = register(rng);
    [jal(1, 8), jal(0, 12), xor(a, a, b), jalr(0, 0, 1)]
}
