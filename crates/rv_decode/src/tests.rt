use crate::{Insn, decode, encode};
use fsim_base::{Class, Flow};

macro_rules! table {
    ($($word:literal = $name:ident $fields:tt,)+) => {
        [$(($word, Insn::$name $fields)),+]
    };
}

/// Words as the GNU assembler 2.40 makes them of the texts beside them, and what those texts say.
static WORDS: [(u32, Insn); 75] = table! {
    0x8000_02b7 = Lui { rd: 5, imm: 0x8000_0000 }, // lui x5, 0x80000
    0xffff_ffb7 = Lui { rd: 31, imm: 0xffff_f000 }, // lui x31, 0xfffff
    0x0000_1037 = Lui { rd: 0, imm: 0x0000_1000 }, // lui x0, 1
    0x1234_5317 = Auipc { rd: 6, imm: 0x1234_5000 }, // auipc x6, 0x12345
    0x0000_0097 = Auipc { rd: 1, imm: 0 }, // auipc x1, 0
    0x0010_00ef = Jal { rd: 1, imm: 0x0000_0800 }, // jal x1, . + 2048
    0xffdf_f06f = Jal { rd: 0, imm: 0xffff_fffc }, // jal x0, . - 4
    0x7fff_ffef = Jal { rd: 31, imm: 0x000f_fffe }, // jal x31, . + 0xffffe
    0x8000_016f = Jal { rd: 2, imm: 0xfff0_0000 }, // jal x2, . - 0x100000
    0x54a5_51ef = Jal { rd: 3, imm: 0x0005_554a }, // jal x3, . + 0x5554a
    0xffc2_80e7 = Jalr { rd: 1, rs1: 5, imm: 0xffff_fffc }, // jalr x1, -4(x5)
    0x7fff_8067 = Jalr { rd: 0, rs1: 31, imm: 0x0000_07ff }, // jalr x0, 2047(x31)
    0x7e20_8fe3 = Branch { kind: 0, rs1: 1, rs2: 2, imm: 0x0000_0ffe }, // beq x1, x2, . + 4094
    0x800f_9063 = Branch { kind: 1, rs1: 31, rs2: 0, imm: 0xffff_f000 }, // bne x31, x0, . - 4096
    0x0041_c0e3 = Branch { kind: 4, rs1: 3, rs2: 4, imm: 0x0000_0800 }, // blt x3, x4, . + 2048
    0xfe62_dfe3 = Branch { kind: 5, rs1: 5, rs2: 6, imm: 0xffff_fffe }, // bge x5, x6, . - 2
    0x0083_ef63 = Branch { kind: 6, rs1: 7, rs2: 8, imm: 0x0000_001e }, // bltu x7, x8, . + 30
    0x54f8_7963 = Branch { kind: 7, rs1: 16, rs2: 15, imm: 0x0000_0552 }, // bgeu x16, x15, . + 1362
    0x8001_0083 = Load { kind: 0, rd: 1, rs1: 2, imm: 0xffff_f800 }, // lb x1, -2048(x2)
    0x7ff2_1183 = Load { kind: 1, rd: 3, rs1: 4, imm: 0x0000_07ff }, // lh x3, 2047(x4)
    0x000f_2f83 = Load { kind: 2, rd: 31, rs1: 30, imm: 0 }, // lw x31, 0(x30)
    0xfff4_4003 = Load { kind: 4, rd: 0, rs1: 8, imm: 0xffff_ffff }, // lbu x0, -1(x8)
    0x5558_d803 = Load { kind: 5, rd: 16, rs1: 17, imm: 0x0000_0555 }, // lhu x16, 1365(x17)
    0x8011_0023 = Store { kind: 0, rs1: 2, rs2: 1, imm: 0xffff_f800 }, // sb x1, -2048(x2)
    0x7e32_1fa3 = Store { kind: 1, rs1: 4, rs2: 3, imm: 0x0000_07ff }, // sh x3, 2047(x4)
    0xabf8_2523 = Store { kind: 2, rs1: 16, rs2: 31, imm: 0xffff_faaa }, // sw x31, -1366(x16)
    0x0000_afa3 = Store { kind: 2, rs1: 1, rs2: 0, imm: 0x0000_001f }, // sw x0, 31(x1)
    0x0000_0013 = OpImm { kind: 0, alt: false, rd: 0, rs1: 0, imm: 0 }, // addi x0, x0, 0
    // addi x1, x2, -2048
    0x8001_0093 = OpImm { kind: 0, alt: false, rd: 1, rs1: 2, imm: 0xffff_f800 },
    0x7fff_0f93 = OpImm { kind: 0, alt: false, rd: 31, rs1: 30, imm: 0x7ff }, // addi x31, x30, 2047
    0xfff2_2193 = OpImm { kind: 2, alt: false, rd: 3, rs1: 4, imm: 0xffff_ffff }, // slti x3, x4, -1
    // sltiu x5, x6, -1
    0xfff3_3293 = OpImm { kind: 3, alt: false, rd: 5, rs1: 6, imm: 0xffff_ffff },
    0x5554_4393 = OpImm { kind: 4, alt: false, rd: 7, rs1: 8, imm: 0x555 }, // xori x7, x8, 1365
    // ori x9, x10, -1366
    0xaaa5_6493 = OpImm { kind: 6, alt: false, rd: 9, rs1: 10, imm: 0xffff_faaa },
    0x0ff6_7593 = OpImm { kind: 7, alt: false, rd: 11, rs1: 12, imm: 0xff }, // andi x11, x12, 255
    0x0007_1693 = OpImm { kind: 1, alt: false, rd: 13, rs1: 14, imm: 0 }, // slli x13, x14, 0
    0x01f7_1693 = OpImm { kind: 1, alt: false, rd: 13, rs1: 14, imm: 0x1f }, // slli x13, x14, 31
    0x01f8_5793 = OpImm { kind: 5, alt: false, rd: 15, rs1: 16, imm: 0x1f }, // srli x15, x16, 31
    0x4019_5893 = OpImm { kind: 5, alt: true, rd: 17, rs1: 18, imm: 1 }, // srai x17, x18, 1
    0x41f9_5893 = OpImm { kind: 5, alt: true, rd: 17, rs1: 18, imm: 0x1f }, // srai x17, x18, 31
    0x01a5_8cb3 = Op { kind: 0, alt: false, rd: 25, rs1: 11, rs2: 26 }, // add x25, x11, x26
    0x4058_0033 = Op { kind: 0, alt: true, rd: 0, rs1: 16, rs2: 5 }, // sub x0, x16, x5
    0x010a_93b3 = Op { kind: 1, alt: false, rd: 7, rs1: 21, rs2: 16 }, // sll x7, x21, x16
    0x01bd_2733 = Op { kind: 2, alt: false, rd: 14, rs1: 26, rs2: 27 }, // slt x14, x26, x27
    0x006f_bab3 = Op { kind: 3, alt: false, rd: 21, rs1: 31, rs2: 6 }, // sltu x21, x31, x6
    0x0112_4e33 = Op { kind: 4, alt: false, rd: 28, rs1: 4, rs2: 17 }, // xor x28, x4, x17
    0x01c4_d1b3 = Op { kind: 5, alt: false, rd: 3, rs1: 9, rs2: 28 }, // srl x3, x9, x28
    0x4077_5533 = Op { kind: 5, alt: true, rd: 10, rs1: 14, rs2: 7 }, // sra x10, x14, x7
    0x0129_e8b3 = Op { kind: 6, alt: false, rd: 17, rs1: 19, rs2: 18 }, // or x17, x19, x18
    0x01dc_7c33 = Op { kind: 7, alt: false, rd: 24, rs1: 24, rs2: 29 }, // and x24, x24, x29
    0x028e_8fb3 = MulDiv { kind: 0, rd: 31, rs1: 29, rs2: 8 }, // mul x31, x29, x8
    0x0331_1333 = MulDiv { kind: 1, rd: 6, rs1: 2, rs2: 19 }, // mulh x6, x2, x19
    0x03e3_a6b3 = MulDiv { kind: 2, rd: 13, rs1: 7, rs2: 30 }, // mulhsu x13, x7, x30
    0x0296_3a33 = MulDiv { kind: 3, rd: 20, rs1: 12, rs2: 9 }, // mulhu x20, x12, x9
    0x0348_cdb3 = MulDiv { kind: 4, rd: 27, rs1: 17, rs2: 20 }, // div x27, x17, x20
    0x03fb_5133 = MulDiv { kind: 5, rd: 2, rs1: 22, rs2: 31 }, // divu x2, x22, x31
    0x02ad_e4b3 = MulDiv { kind: 6, rd: 9, rs1: 27, rs2: 10 }, // rem x9, x27, x10
    0x0350_7833 = MulDiv { kind: 7, rd: 16, rs1: 0, rs2: 21 }, // remu x16, x0, x21
    0x0ff0_000f = Fence { rd: 0, rs1: 0, upper: 0x0ff, fetch: false }, // fence
    0x0210_000f = Fence { rd: 0, rs1: 0, upper: 0x021, fetch: false }, // fence r, w
    0x0f40_000f = Fence { rd: 0, rs1: 0, upper: 0x0f4, fetch: false }, // fence iorw, o
    0x8330_000f = Fence { rd: 0, rs1: 0, upper: 0x833, fetch: false }, // fence.tso
    // .insn i 0x0f, 0, x5, x6, 0x123
    0x1233_028f = Fence { rd: 5, rs1: 6, upper: 0x123, fetch: false },
    0x0000_100f = Fence { rd: 0, rs1: 0, upper: 0x000, fetch: true }, // fence.i
    // .insn i 0x0f, 1, x31, x1, -1
    0xfff0_9f8f = Fence { rd: 31, rs1: 1, upper: 0xfff, fetch: true },
    0x0000_0073 = Ecall {}, // ecall
    0x0010_0073 = Ebreak {}, // ebreak
    0x3020_0073 = Mret {}, // mret
    0x1050_0073 = Wfi {}, // wfi
    0x3001_10f3 = Csr { kind: 1, rd: 1, rs1: 2, csr: 0x300 }, // csrrw x1, mstatus, x2
    0xb800_21f3 = Csr { kind: 2, rd: 3, rs1: 0, csr: 0xb80 }, // csrrs x3, mcycleh, x0
    0x304f_b073 = Csr { kind: 3, rd: 0, rs1: 31, csr: 0x304 }, // csrrc x0, mie, x31
    0x305f_d273 = Csr { kind: 5, rd: 4, rs1: 31, csr: 0x305 }, // csrrwi x4, mtvec, 31
    0xfff0_62f3 = Csr { kind: 6, rd: 5, rs1: 0, csr: 0xfff }, // csrrsi x5, 0xfff, 0
    0xf158_7373 = Csr { kind: 7, rd: 6, rs1: 16, csr: 0xf15 }, // csrrci x6, mconfigptr, 16
};

/// Words that the GNU assembler 2.40 makes of instructions of other extensions and modes, and of
/// fields that no instruction has.
static ILLEGAL: [u32; 39] = [
    0x1020_0073, // sret
    0x1200_0073, // sfence.vma x0, x0
    0x0031_009b, // addiw x1, x2, 3
    0x0001_6083, // lwu x1, 0(x2)
    0x0001_3083, // ld x1, 0(x2)
    0x0011_3023, // sd x1, 0(x2)
    0x0201_1093, // slli x1, x2, 32
    0x43f1_5093, // srai x1, x2, 63
    0x0031_00bb, // addw x1, x2, x3
    0x0231_00bb, // mulw x1, x2, x3
    0x1001_20af, // lr.w x1, (x2)
    0x0021_a0af, // amoadd.w x1, x2, (x3)
    0x0001_2087, // flw f1, 0(x2)
    0x0031_70d3, // fadd.s f1, f2, f3
    0x4031_70b3, // andn x1, x2, x3
    0x2031_20b3, // sh1add x1, x2, x3
    0x6031_5093, // rori x1, x2, 3
    0x2831_1093, // bseti x1, x2, 3
    0x0040_a00f, // cbo.zero (x1)
    0x0001_10e7, // .insn i 0x67, 1, x1, x2, 0
    0x0020_a463, // .insn b 0x63, 2, x1, x2, . + 8
    0x0020_b463, // .insn b 0x63, 3, x1, x2, . + 8
    0x0001_7083, // .insn i 0x03, 7, x1, x2, 0
    0x0011_4023, // .insn s 0x23, 4, x1, 0(x2)
    0x4031_1093, // .insn r 0x13, 1, 0x20, x1, x2, x3
    0x0231_5093, // .insn r 0x13, 5, 0x01, x1, x2, x3
    0x4031_40b3, // .insn r 0x33, 4, 0x20, x1, x2, x3
    0x4231_00b3, // .insn r 0x33, 0, 0x21, x1, x2, x3
    0x0431_00b3, // .insn r 0x33, 0, 0x02, x1, x2, x3
    0x0000_300f, // .insn i 0x0f, 3, x0, x0, 0
    0x0000_00f3, // .insn i 0x73, 0, x1, x0, 0
    0x0000_8073, // .insn i 0x73, 0, x0, x1, 0
    0x0010_00f3, // .insn i 0x73, 0, x1, x0, 1
    0x0020_0073, // .insn i 0x73, 0, x0, x0, 2
    0x3020_00f3, // .insn i 0x73, 0, x1, x0, 0x302
    0x1050_8073, // .insn i 0x73, 0, x0, x1, 0x105
    0x3001_40f3, // .insn i 0x73, 4, x1, x2, 0x300
    0x0000_0000, // .word 0x00000000
    0xffff_ffff, // .word 0xffffffff
];

fn words() -> &'static [(u32, Insn)] {
    &WORDS
}

fn illegal() -> &'static [u32] {
    &ILLEGAL
}

#[test]
fn words_of_the_gnu_assembler(rt: HostRuntime) {
    for &(word, insn) in words() {
        assert_eq!(rt; decode(word), Some(insn), "{word:08x}");
        assert!(rt; insn.fits(), "{word:08x}");
        assert_eq!(rt; encode(insn), word);
    }
}

#[test]
fn words_outside_the_table_decode_to_nothing(rt: HostRuntime) {
    for &word in illegal() {
        assert_eq!(rt; decode(word), None, "{word:08x}");
    }
}

const NONE: (Option<u8>, Option<u8>) = (None, None);

/// The class and the flow of a word, the registers that it reads, and the one that it writes.
type Asked = (Class, Flow, (Option<u8>, Option<u8>), Option<u8>);

static ASKED: [(u32, Asked); 12] = [
    (0x0010_00ef, (Class::Alu, Flow::Jump, NONE, Some(1))), // jal x1
    (0xffdf_f06f, (Class::Alu, Flow::Jump, NONE, None)), // jal x0
    (
        0x0041_c0e3,
        (Class::Alu, Flow::Branch, (Some(3), Some(4)), None),
    ), // blt x3, x4
    (
        0xfff4_4003,
        (Class::Load, Flow::Plain, (Some(8), None), None),
    ), // lbu x0, -1(x8)
    (
        0x0000_afa3,
        (Class::Store, Flow::Plain, (Some(1), Some(0)), None),
    ), // sw x0, 31(x1)
    (
        0x0296_3a33,
        (Class::Mul, Flow::Plain, (Some(12), Some(9)), Some(20)),
    ), // mulhu x20, x12, x9
    (
        0x0348_cdb3,
        (Class::Div, Flow::Plain, (Some(17), Some(20)), Some(27)),
    ), // div x27, x17, x20
    (0x1233_028f, (Class::Alu, Flow::Plain, NONE, None)), // fence with rd 5 and rs1 6
    (0x0000_0073, (Class::Alu, Flow::Plain, NONE, None)), // ecall
    (0x3020_0073, (Class::Serial, Flow::Jump, NONE, None)), // mret
    (
        0x3001_10f3,
        (Class::Serial, Flow::Plain, (Some(2), None), Some(1)),
    ), // csrrw x1, mstatus, x2
    (0x305f_d273, (Class::Serial, Flow::Plain, NONE, Some(4))), // csrrwi x4, mtvec, 31
];

fn asked() -> &'static [(u32, Asked)] {
    &ASKED
}

#[test]
fn instructions_tell_a_pipeline_what_the_table_says(rt: HostRuntime) {
    for &(word, wanted) in asked() {
        let insn = decode(word).expect(&rt, "a word of the table");
        let asked = (insn.class(), insn.flow(), insn.sources(), insn.dest());
        assert_eq!(rt; asked, wanted, "{word:08x}");
    }
}
