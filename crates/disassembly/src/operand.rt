//! The operands of instructions.
ghost use Rattle.std.specs.Prelude.{◌≡◌, ◌+◌, ◌≤◌, ◌<◌, ◌++◌, ◌^◌, ◌==◌, ◌||◌, length, option_map};
ghost use Rattle.std.specs.Prelude.{IfSome, MatchBool};
ghost use Rattle.rv_decode.specs.Fits.{IsRegister, IsImmediate};
ghost use Rattle.disassembly.specs.Number.{prefixed};
ghost use Rattle.disassembly.specs.Text.{register, based, immediate_text, target, letter};
ghost use Rattle.disassembly.specs.Text.{accesses, csr_text};
ghost use Rattle.disassembly.specs.CsrName.{name_at};

use crate::text::{LONGEST, WordText};
use fsim_base::wrap_add;
use machine_csr::address;

/// The name of a register.
pub fn register(text: &mut WordText, number: u8)
    requires number { IsRegister number }
    requires room { length text.old + 3 ≤ LONGEST }
    ensures text { text.new ≡ text.old ++ register number }
    ensures len { length text.new ≤ length text.old + 3 }
{
    text.byte(b'x');
    text.decimal(number);
}

/// An offset, and the register that it is added to.
pub fn based(text: &mut WordText, imm: u32, rs1: u8)
    requires imm { IsImmediate imm 12 }
    requires rs1 { IsRegister rs1 }
    requires room { length text.old + 10 ≤ LONGEST }
    ensures text { text.new ≡ text.old ++ based imm rs1 }
    ensures len { length text.new ≤ length text.old + 10 }
{
    text.signed(imm);
    text.byte(b'(');
    register(text, rs1);
    text.byte(b')');
}

/// A number with `0x` before it, of at most five digits.
#[tactic(auto, using(crate::proofs::Hex::length_twenty_bits))]
pub fn prefixed(text: &mut WordText, number: u32)
    requires small { number < 2 ^ 20 }
    requires room { length text.old + 7 ≤ LONGEST }
    ensures text { text.new ≡ text.old ++ prefixed number }
    ensures len { length text.new ≤ length text.old + 7 }
{
    text.bytes(b"0x");
    text.hex(1, number);
}

/// The amount of a shift, or an immediate.
pub fn immediate(text: &mut WordText, kind: u8, imm: u32)
    requires imm { MatchBool (kind == 1 || kind == 5) (imm < 32) (IsImmediate imm 12) }
    requires room { length text.old + 7 ≤ LONGEST }
    ensures text { text.new ≡ text.old ++ immediate_text kind imm }
    ensures len { length text.new ≤ length text.old + 7 }
{
    match kind {
        1 | 5 => prefixed(text, imm),
        _ => text.signed(imm),
    }
}

/// The address that a jump or a branch leads to.
#[tactic(auto, using(crate::proofs::Hex::length_word))]
pub fn target(text: &mut WordText, addr: u32, imm: u32)
    requires room { length text.old + 8 ≤ LONGEST }
    ensures text { text.new ≡ text.old ++ target addr imm }
    ensures len { length text.new ≤ length text.old + 8 }
{
    text.hex(8, wrap_add(addr, imm));
}

/// A letter, if the bit at its place is set.
fn letter(text: &mut WordText, set: u16, place: u32, name: &[u8])
    requires place { place < 4 }
    requires name { length name.now ≡ 1 }
    requires room { length text.old + 1 ≤ LONGEST }
    ensures text { text.new ≡ text.old ++ letter set place name.now }
    ensures len { length text.new ≤ length text.old + 1 }
{
    if set >> place & 1 == 1 {
        text.bytes(name);
    }
}

/// Which accesses a FENCE orders, of four bits.
#[tactic(auto, unfolding(crate::specs::Text::accesses))]
pub fn accesses(text: &mut WordText, set: u16)
    requires set { set < 16 }
    requires room { length text.old + 4 ≤ LONGEST }
    ensures text { text.new ≡ text.old ++ accesses set }
    ensures len { length text.new ≤ length text.old + 4 }
{
    if set == 0 {
        text.byte(b'0');
    } else {
        letter(text, set, 3, b"i");
        letter(text, set, 2, b"o");
        letter(text, set, 1, b"r");
        letter(text, set, 0, b"w");
    }
}

/// A CSR, by its name if it has one.
pub fn csr(text: &mut WordText, csr: u16)
    requires csr { csr < 2 ^ 12 }
    requires room { length text.old + 13 ≤ LONGEST }
    ensures text { text.new ≡ text.old ++ csr_text csr }
    ensures len { length text.new ≤ length text.old + 13 }
{
    match csr_name(csr) {
        Some(name) => text.bytes(name),
        None => prefixed(text, u32::from(csr)),
    }
}

/// The name of the CSR at an address, if there is one.
#[tactic(auto, unfolding(crate::specs::CsrName::name_at))]
fn csr_name(csr: u16) -> Option<&'static [u8]>
    ensures name { option_map (λ name. name.now) result ≡ name_at csr }
    ensures len { IfSome result (λ name. length name.now ≤ 13) }
{
    let name: &'static [u8] = match csr {
        address::MSTATUS => b"mstatus",
        address::MISA => b"misa",
        address::MIE => b"mie",
        address::MTVEC => b"mtvec",
        address::MSTATUSH => b"mstatush",
        address::MCOUNTINHIBIT => b"mcountinhibit",
        address::MSCRATCH => b"mscratch",
        address::MEPC => b"mepc",
        address::MCAUSE => b"mcause",
        address::MTVAL => b"mtval",
        address::MIP => b"mip",
        address::PMPCFG0 => b"pmpcfg0",
        address::PMPADDR0 => b"pmpaddr0",
        address::MCYCLE => b"mcycle",
        address::MCYCLEH => b"mcycleh",
        address::MINSTRET => b"minstret",
        address::MINSTRETH => b"minstreth",
        address::CYCLE => b"cycle",
        address::CYCLEH => b"cycleh",
        address::TIME => b"time",
        address::TIMEH => b"timeh",
        address::INSTRET => b"instret",
        address::INSTRETH => b"instreth",
        address::MVENDORID => b"mvendorid",
        address::MARCHID => b"marchid",
        address::MIMPID => b"mimpid",
        address::MHARTID => b"mhartid",
        address::MCONFIGPTR => b"mconfigptr",
        _ => return None,
    };
    Some(name)
}
