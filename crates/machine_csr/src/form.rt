ghost use Rattle.std.specs.Prelude.{◌≡◌, IsFalse};
ghost use Rattle.machine_csr.specs.Csr.{is_swap, operand_of, combined, does_read, does_write};
ghost use Rattle.machine_csr.specs.Csr.{is_allowed, row_at, shows_time, reads_time_of, IsTimeless};

use crate::address::{CYCLE, CYCLEH, MCYCLE, MCYCLEH, MIP, TIME, TIMEH};
use rv_decode::Insn;

// The forms of CSR instructions by funct3 (RISC-V unprivileged manual, chapter "Zicsr").
const CSRRW: u8 = 1;

const CSRRS: u8 = 2;

const CSRRC: u8 = 3;

const CSRRWI: u8 = 5;

const CSRRSI: u8 = 6;

const CSRRCI: u8 = 7;

/// Whether this form replaces the whole register.
fn is_swap(kind: u8) -> bool
    ensures { result ≡ is_swap kind }
{
    matches!(kind, CSRRW | CSRRWI)
}

/// Whether the instruction reads the register: a swap with rd = x0 doesn't.
pub fn does_read(kind: u8, rd: u8) -> bool
    ensures { result ≡ does_read kind rd }
{
    rd != 0 || !is_swap(kind)
}

/// Whether the instruction writes the register: setting or clearing by x0 or an immediate 0
/// doesn't.
pub fn does_write(kind: u8, rs1: u8) -> bool
    ensures { result ≡ does_write kind rs1 }
{
    rs1 != 0 || is_swap(kind)
}

/// Whether this is one of the six forms and doesn't write a read-only address.
pub fn is_allowed(kind: u8, rs1: u8, csr: u16) -> bool
    ensures { result ≡ is_allowed kind rs1 csr }
{
    let is_form = matches!(kind, CSRRW | CSRRS | CSRRC | CSRRWI | CSRRSI | CSRRCI);
    let is_read_only = csr >> 10 & 3 == 3;
    is_form && !(is_read_only && does_write(kind, rs1))
}

/// The operand: the value of rs1, or in the immediate forms the field itself.
pub fn operand(kind: u8, rs1: u8, a: u32) -> u32
    ensures { result ≡ operand_of kind rs1 a }
{
    if kind >= CSRRWI { u32::from(rs1) } else { a }
}

/// What is written, of the value before and the operand; any form but those that swap or set
/// clears.
pub fn combine(kind: u8, old: u32, operand: u32) -> u32
    ensures { result ≡ combined kind old operand }
{
    match kind {
        CSRRW | CSRRWI => operand,
        CSRRS | CSRRSI => old | operand,
        _ => old & !operand,
    }
}

/// Whether the register at an address shows the time.
#[tactic(auto, unfolding(crate::specs::Csr::row_at))]
fn shows_time(csr: u16) -> bool
    ensures { result ≡ shows_time (row_at csr) }
{
    matches!(csr, MCYCLE | MCYCLEH | CYCLE | CYCLEH | TIME | TIMEH | MIP)
}

/// Whether this is a legal CSR instruction that reads the time: one on mcycle, mcycleh, cycle,
/// cycleh, time, timeh or mip.
#[tactic(auto, using(crate::proofs::Time::timeless), unfolding(crate::specs::Csr::reads_time_of))]
pub fn reads_time(insn: Insn) -> bool
    ensures reads { result ≡ reads_time_of insn }

    // Every other instruction answers the same at each time.
    ensures timeless { IsFalse result → IsTimeless insn }
{
    let Insn::Csr { kind, rd, rs1, csr } = insn else {
        return false;
    };
    is_allowed(kind, rs1, csr) && does_read(kind, rd) && shows_time(csr)
}
