//! Values worked out from the text and tables of the manual, apart from this code.

use crate::{Outcome, Reach, eval, extend};
use fsim_base::{Cause, Width};
use rv_decode::Insn;

/// The address at which the cases stand.
const AT: u32 = 0x8000_0000;

/// Funct3, the operands and the value.
static PRODUCTS: [(u8, u32, u32, u32); 46] = [
    // MUL, MULH, MULHSU, MULHU
    (0, 0x0000_7e00, 0xb6db_6db7, 0x0000_1200),
    (0, 0xaaaa_aaab, 0x0002_fe7d, 0x0000_ff7f),
    (0, 0xffff_ffff, 0xffff_ffff, 0x0000_0001),
    (1, 0xaaaa_aaab, 0x0002_fe7d, 0xffff_0081),
    (1, 0xff00_0000, 0xff00_0000, 0x0001_0000),
    (1, 0x8000_0000, 0x8000_0000, 0x4000_0000),
    (1, 0xffff_ffff, 0xffff_ffff, 0x0000_0000),
    (1, 0xffff_ffff, 0x0000_0001, 0xffff_ffff),
    (2, 0xaaaa_aaab, 0x0002_fe7d, 0xffff_0081),
    (2, 0x0002_fe7d, 0xaaaa_aaab, 0x0001_fefe),
    (2, 0xff00_0000, 0xff00_0000, 0xff01_0000),
    (2, 0x8000_0000, 0xffff_ffff, 0x8000_0000),
    (2, 0xffff_ffff, 0xffff_ffff, 0xffff_ffff),
    (2, 0x0000_0001, 0xffff_ffff, 0x0000_0000),
    (3, 0xaaaa_aaab, 0x0002_fe7d, 0x0001_fefe),
    (3, 0xff00_0000, 0xff00_0000, 0xfe01_0000),
    (3, 0xffff_ffff, 0xffff_ffff, 0xffff_fffe),
    (3, 0xffff_ffff, 0x0000_0001, 0x0000_0000),
    // DIV: 20 and -20 by 6 and -6; overflow; by 0
    (4, 20, 6, 3),
    (4, 0xffff_ffec, 6, 0xffff_fffd),
    (4, 20, 0xffff_fffa, 0xffff_fffd),
    (4, 0xffff_ffec, 0xffff_fffa, 3),
    (4, 0x8000_0000, 1, 0x8000_0000),
    (4, 0x8000_0000, 0xffff_ffff, 0x8000_0000),
    (4, 0x8000_0000, 0, 0xffff_ffff),
    (4, 1, 0, 0xffff_ffff),
    (4, 0, 0, 0xffff_ffff),
    // DIVU
    (5, 0xffff_ffec, 6, 715_827_879),
    (5, 0xffff_ffec, 0xffff_fffa, 0),
    (5, 0x8000_0000, 0xffff_ffff, 0),
    (5, 0x8000_0000, 0, 0xffff_ffff),
    (5, 0, 0, 0xffff_ffff),
    // REM
    (6, 20, 6, 2),
    (6, 0xffff_ffec, 6, 0xffff_fffe),
    (6, 20, 0xffff_fffa, 2),
    (6, 0xffff_ffec, 0xffff_fffa, 0xffff_fffe),
    (6, 0x8000_0000, 1, 0),
    (6, 0x8000_0000, 0xffff_ffff, 0),
    (6, 0x8000_0000, 0, 0x8000_0000),
    (6, 1, 0, 1),
    // REMU
    (7, 20, 6, 2),
    (7, 0xffff_ffec, 6, 2),
    (7, 20, 0xffff_fffa, 20),
    (7, 0xffff_ffec, 0xffff_fffa, 0xffff_ffec),
    (7, 0x8000_0000, 0xffff_ffff, 0x8000_0000),
    (7, 0x8000_0000, 0, 0x8000_0000),
];

fn products() -> &'static [(u8, u32, u32, u32)] {
    &PRODUCTS
}

#[test]
fn multiplies_and_divides(rt: HostRuntime) {
    for &(kind, a, b, value) in products() {
        let insn = Insn::MulDiv {
            kind,
            rd: 1,
            rs1: 2,
            rs2: 3,
        };
        assert_eq!(rt;
            eval(insn, AT, a, b).value,
            value,
            "funct3 {kind} at {a:#x} and {b:#x}"
        );
    }
}

/// Funct3, whether funct7 is 0x20, the operands and the value.
static SUMS: [(u8, bool, u32, u32, u32); 27] = [
    (0, false, 0x7fff_ffff, 0x0000_7fff, 0x8000_7ffe),
    (0, false, 0xffff_ffff, 0x0000_0001, 0x0000_0000),
    (1, false, 0x0000_0001, 31, 0x8000_0000),
    (1, false, 0x2121_2121, 31, 0x8000_0000),
    (1, false, 0x2121_2121, 0xffff_ffe1, 0x4242_4242),
    (2, false, 0xffff_ffff, 0x0000_0001, 1),
    (2, false, 0x0000_0001, 0xffff_ffff, 0),
    (2, false, 0x8000_0000, 0xffff_8000, 1),
    // SLTIU with the immediates -2048 and -1
    (3, false, 0x0000_0000, 0xffff_f800, 1),
    (3, false, 0x7fff_ffff, 0xffff_f800, 1),
    (3, false, 0x0000_0000, 0xffff_ffff, 1),
    (3, false, 0xffff_ffff, 0x0000_0001, 0),
    (3, false, 0xffff_ffff, 0xffff_ffff, 0),
    (4, false, 0xff00_ff00, 0x0f0f_0f0f, 0xf00f_f00f),
    (4, false, 0x00ff_0f00, 0xffff_ff0f, 0xff00_f00f),
    (5, false, 0x8000_0000, 31, 0x0000_0001),
    (5, false, 0xffff_ffff, 31, 0x0000_0001),
    (5, false, 0x2121_2121, 0xffff_ffff, 0x0000_0000),
    (5, true, 0x8000_0000, 1, 0xc000_0000),
    (5, true, 0x8000_0000, 31, 0xffff_ffff),
    (5, true, 0x7fff_ffff, 31, 0x0000_0000),
    (5, true, 0x8181_8181, 0xffff_ffc7, 0xff03_0303),
    (6, false, 0xff00_ff00, 0x0f0f_0f0f, 0xff0f_ff0f),
    (6, false, 0xff00_ff00, 0xffff_ff0f, 0xffff_ff0f),
    (7, false, 0xff00_ff00, 0x0f0f_0f0f, 0x0f00_0f00),
    (7, false, 0xff00_ff00, 0xffff_ff0f, 0xff00_ff00),
    (7, false, 0x00ff_00ff, 0x0000_070f, 0x0000_000f),
];

fn sums() -> &'static [(u8, bool, u32, u32, u32)] {
    &SUMS
}

#[test]
fn computes_with_registers_and_immediates(rt: HostRuntime) {
    for &(kind, alt, a, b, value) in sums() {
        let op = Insn::Op {
            kind,
            alt,
            rd: 1,
            rs1: 2,
            rs2: 3,
        };
        let op_imm = Insn::OpImm {
            kind,
            alt,
            rd: 1,
            rs1: 2,
            imm: b,
        };
        assert_eq!(rt;
            eval(op, AT, a, b).value,
            value,
            "funct3 {kind} at {a:#x} and {b:#x}"
        );
        assert_eq!(rt;
            eval(op_imm, AT, a, 0).value,
            value,
            "funct3 {kind} at {a:#x} and immediate {b:#x}"
        );
    }
    let sub = Insn::Op {
        kind: 0,
        alt: true,
        rd: 1,
        rs1: 2,
        rs2: 3,
    };
    assert_eq!(rt; eval(sub, AT, 0x8000_0000, 0xffff_8000).value, 0x8000_8000);
}

/// What was read, how much of it counts, whether its sign does, and the value.
static LOADED: [(u32, Width, bool, u32); 8] = [
    (0x0000_12ff, Width::Byte, true, 0xffff_ffff),
    (0x0000_12ff, Width::Byte, false, 0x0000_00ff),
    (0x0000_007f, Width::Byte, true, 0x0000_007f),
    (0x0001_ff00, Width::Half, true, 0xffff_ff00),
    (0x0001_ff00, Width::Half, false, 0x0000_ff00),
    (0x0000_0ff0, Width::Half, true, 0x0000_0ff0),
    (0xf00f_f00f, Width::Word, true, 0xf00f_f00f),
    (0xf00f_f00f, Width::Word, false, 0xf00f_f00f),
];

fn loaded() -> &'static [(u32, Width, bool, u32)] {
    &LOADED
}

#[test]
fn extends_what_a_load_got(rt: HostRuntime) {
    for &(raw, width, signed, value) in loaded() {
        assert_eq!(rt;
            extend(raw, width, signed),
            value,
            "{raw:#x} as {width:?}, signed {signed}"
        );
    }
}

fn jal(imm: u32) -> Insn {
    Insn::Jal { rd: 1, imm }
}

fn jalr(imm: u32) -> Insn {
    Insn::Jalr { rd: 1, rs1: 2, imm }
}

fn branch(kind: u8, imm: u32) -> Insn {
    Insn::Branch {
        kind,
        rs1: 2,
        rs2: 3,
        imm,
    }
}

const BEHIND: u32 = AT + 4;

const MINUS_1: u32 = 0xffff_ffff;

const MINUS_8: u32 = 0xffff_fff8;

const NONE: Option<(Cause, u32)> = None;

const AHEAD_6: Option<(Cause, u32)> = Some((Cause::InstructionMisaligned, AT + 6));

const AT_1002: Option<(Cause, u32)> = Some((Cause::InstructionMisaligned, 0x1002));

const CALL: Option<(Cause, u32)> = Some((Cause::EnvironmentCall, 0));

const BREAK: Option<(Cause, u32)> = Some((Cause::Breakpoint, 0));

/// An instruction, its operands, what it writes, where it leads, and its trap.
fn jumps() -> [(Insn, u32, u32, u32, u32, Option<(Cause, u32)>); 23] {
    [
        (jal(8), 0, 0, BEHIND, AT + 8, NONE),
        (jal(MINUS_8), 0, 0, BEHIND, AT - 8, NONE),
        (jal(6), 0, 0, BEHIND, BEHIND, AHEAD_6),
        // JALR clears bit 0, and only that
        (jalr(0), 0x1001, 0, BEHIND, 0x1000, NONE),
        (jalr(MINUS_1), 0x1002, 0, BEHIND, 0x1000, NONE),
        (jalr(0), 0x1003, 0, BEHIND, BEHIND, AT_1002),
        // BEQ, BNE, BLT, BGE, BLTU, BGEU
        (branch(0, MINUS_8), 5, 5, 0, AT - 8, NONE),
        (branch(0, 6), 5, 5, 0, BEHIND, AHEAD_6),
        (branch(0, 6), 5, 6, 0, BEHIND, NONE),
        (branch(1, 8), 5, 6, 0, AT + 8, NONE),
        (branch(1, 8), 5, 5, 0, BEHIND, NONE),
        (branch(4, 8), MINUS_1, 1, 0, AT + 8, NONE),
        (branch(4, 8), 1, 1, 0, BEHIND, NONE),
        (branch(5, 8), 1, MINUS_1, 0, AT + 8, NONE),
        (branch(5, 8), 1, 1, 0, AT + 8, NONE),
        (branch(5, 8), MINUS_1, 1, 0, BEHIND, NONE),
        (branch(6, 8), 1, MINUS_1, 0, AT + 8, NONE),
        (branch(6, 8), MINUS_1, 1, 0, BEHIND, NONE),
        (branch(7, 8), MINUS_1, 1, 0, AT + 8, NONE),
        (branch(7, 8), 1, MINUS_1, 0, BEHIND, NONE),
        (Insn::Ecall, 0, 0, 0, BEHIND, CALL),
        (Insn::Ebreak, 0, 0, 0, BEHIND, BREAK),
        (Insn::Wfi, 7, 7, 0, BEHIND, NONE),
    ]
}

#[test]
fn jumps_and_branches(rt: HostRuntime) {
    for (insn, a, b, value, next, cause) in jumps() {
        let want = Outcome {
            value,
            next,
            reach: Reach::Nothing,
            cause,
        };
        assert_eq!(rt; eval(insn, AT, a, b), want, "{insn:?} at {a:#x} and {b:#x}");
    }
}

fn load(kind: u8, imm: u32) -> Insn {
    Insn::Load {
        kind,
        rd: 1,
        rs1: 2,
        imm,
    }
}

fn store(kind: u8, imm: u32) -> Insn {
    Insn::Store {
        kind,
        rs1: 2,
        rs2: 3,
        imm,
    }
}

fn load_of(addr: u32, width: Width, signed: bool) -> Reach {
    Reach::Load {
        addr,
        width,
        signed,
    }
}

fn store_of(addr: u32, width: Width, value: u32) -> Reach {
    Reach::Store { addr, width, value }
}

const DATUM: u32 = 0x1234_5678;

const LOAD_1003: Option<(Cause, u32)> = Some((Cause::LoadMisaligned, 0x1003));

const LOAD_1002: Option<(Cause, u32)> = Some((Cause::LoadMisaligned, 0x1002));

const STORE_1001: Option<(Cause, u32)> = Some((Cause::StoreMisaligned, 0x1001));

const STORE_1006: Option<(Cause, u32)> = Some((Cause::StoreMisaligned, 0x1006));

/// An instruction, what it reaches, and its trap.
fn accesses() -> [(Insn, Reach, Option<(Cause, u32)>); 12] {
    [
        (load(0, 3), load_of(0x1003, Width::Byte, true), NONE),
        (
            load(1, 0xffff_fffe),
            load_of(0xffe, Width::Half, true),
            NONE,
        ),
        (load(2, 4), load_of(0x1004, Width::Word, true), NONE),
        (load(4, 3), load_of(0x1003, Width::Byte, false), NONE),
        (load(5, 2), load_of(0x1002, Width::Half, false), NONE),
        (load(1, 3), load_of(0x1003, Width::Half, true), LOAD_1003),
        (load(2, 2), load_of(0x1002, Width::Word, true), LOAD_1002),
        (store(0, 3), store_of(0x1003, Width::Byte, 0x78), NONE),
        (store(1, 2), store_of(0x1002, Width::Half, 0x5678), NONE),
        (store(2, 0), store_of(0x1000, Width::Word, DATUM), NONE),
        (
            store(1, 1),
            store_of(0x1001, Width::Half, 0x5678),
            STORE_1001,
        ),
        (
            store(2, 6),
            store_of(0x1006, Width::Word, DATUM),
            STORE_1006,
        ),
    ]
}

#[test]
fn loads_and_stores(rt: HostRuntime) {
    for (insn, reach, cause) in accesses() {
        let want = Outcome {
            value: 0,
            next: AT + 4,
            reach,
            cause,
        };
        assert_eq!(rt; eval(insn, AT, 0x1000, DATUM), want, "{insn:?}");
    }
}
