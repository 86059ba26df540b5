use crate::{WordText, write_text};

/// Words at 80000000, and their texts as GNU objdump 2.40 writes them with `-M numeric,no-aliases`,
/// but for the tab after a mnemonic, the `0x` of a target, and the last, which is `.4byte 0x3003`.
/// `reference/out/reference disasm` writes them too.
static TEXTS: [(u32, &str); 106] = [
    (0x0000_0037, "lui x0,0x0"),
    (0xffff_ffb7, "lui x31,0xfffff"),
    (0x8000_00b7, "lui x1,0x80000"),
    (0x7fff_f2b7, "lui x5,0x7ffff"),
    (0x0000_1f97, "auipc x31,0x1"),
    (0xffff_f017, "auipc x0,0xfffff"),
    (0x0000_006f, "jal x0,80000000"),
    (0xffff_ffef, "jal x31,7ffffffe"),
    (0x8000_00ef, "jal x1,7ff00000"),
    (0x7fff_f16f, "jal x2,800ffffe"),
    (0x000f_8067, "jalr x0,0(x31)"),
    (0xfff0_0fe7, "jalr x31,-1(x0)"),
    (0x8002_80e7, "jalr x1,-2048(x5)"),
    (0x7ff0_82e7, "jalr x5,2047(x1)"),
    (0x01f0_0063, "beq x0,x31,80000000"),
    (0xfe0f_8fe3, "beq x31,x0,7ffffffe"),
    (0x8020_9063, "bne x1,x2,7ffff000"),
    (0x7e41_cfe3, "blt x3,x4,80000ffe"),
    (0x8000_5063, "bge x0,x0,7ffff000"),
    (0x7fff_efe3, "bltu x31,x31,80000ffe"),
    (0xfef8_7ee3, "bgeu x16,x15,7ffffffc"),
    (0x000f_8003, "lb x0,0(x31)"),
    (0xfff0_1f83, "lh x31,-1(x0)"),
    (0x8001_2083, "lw x1,-2048(x2)"),
    (0x7ff2_4183, "lbu x3,2047(x4)"),
    (0xff68_d803, "lhu x16,-10(x17)"),
    (0x0094_a403, "lw x8,9(x9)"),
    (0xc185_a503, "lw x10,-1000(x11)"),
    (0xc195_a503, "lw x10,-999(x11)"),
    (0x01f0_0023, "sb x31,0(x0)"),
    (0xfe0f_9fa3, "sh x0,-1(x31)"),
    (0x8011_2023, "sw x1,-2048(x2)"),
    (0x7e32_2fa3, "sw x3,2047(x4)"),
    (0x0000_0013, "addi x0,x0,0"),
    (0xffff_8f93, "addi x31,x31,-1"),
    (0x8001_2093, "slti x1,x2,-2048"),
    (0x7ff2_3193, "sltiu x3,x4,2047"),
    (0xfff3_4293, "xori x5,x6,-1"),
    (0x0644_6393, "ori x7,x8,100"),
    (0xf9c5_7493, "andi x9,x10,-100"),
    (0x000f_9013, "slli x0,x31,0x0"),
    (0x01f0_1f93, "slli x31,x0,0x1f"),
    (0x0091_5093, "srli x1,x2,0x9"),
    (0x40a2_5193, "srai x3,x4,0xa"),
    (0x41f2_5193, "srai x3,x4,0x1f"),
    (0x001f_8033, "add x0,x31,x1"),
    (0x4000_8fb3, "sub x31,x1,x0"),
    (0x01f0_10b3, "sll x1,x0,x31"),
    (0x0182_2ab3, "slt x21,x4,x24"),
    (0x01d7_be33, "sltu x28,x15,x29"),
    (0x002d_41b3, "xor x3,x26,x2"),
    (0x0072_d533, "srl x10,x5,x7"),
    (0x40c8_58b3, "sra x17,x16,x12"),
    (0x011d_ec33, "or x24,x27,x17"),
    (0x0163_7fb3, "and x31,x6,x22"),
    (0x03b8_8333, "mul x6,x17,x27"),
    (0x020e_16b3, "mulh x13,x28,x0"),
    (0x0253_aa33, "mulhsu x20,x7,x5"),
    (0x02a9_3db3, "mulhu x27,x18,x10"),
    (0x02fe_c133, "div x2,x29,x15"),
    (0x0344_54b3, "divu x9,x8,x20"),
    (0x0399_e833, "rem x16,x19,x25"),
    (0x03ef_7bb3, "remu x23,x30,x30"),
    (0x0ff0_000f, "fence iorw,iorw"),
    (0x0210_000f, "fence r,w"),
    (0x0f80_000f, "fence iorw,i"),
    (0x0460_000f, "fence o,or"),
    (0x0530_000f, "fence ow,rw"),
    (0x0000_100f, "fence.i"),
    (0x0000_0073, "ecall"),
    (0x0010_0073, "ebreak"),
    (0x3020_0073, "mret"),
    (0x1050_0073, "wfi"),
    (0x300f_9073, "csrrw x0,mstatus,x31"),
    (0x3010_2ff3, "csrrs x31,misa,x0"),
    (0x3041_30f3, "csrrc x1,mie,x2"),
    (0x3055_54f3, "csrrwi x9,mtvec,10"),
    (0x3104_e573, "csrrsi x10,mstatush,9"),
    (0x320f_9ff3, "csrrw x31,mcountinhibit,x31"),
    (0x320f_dff3, "csrrwi x31,mcountinhibit,31"),
    (0x3400_1ff3, "csrrw x31,mscratch,x0"),
    (0x3411_20f3, "csrrs x1,mepc,x2"),
    (0x3425_34f3, "csrrc x9,mcause,x10"),
    (0x3434_d573, "csrrwi x10,mtval,9"),
    (0x344f_e073, "csrrsi x0,mip,31"),
    (0x3a00_7ff3, "csrrci x31,pmpcfg0,0"),
    (0x3b01_10f3, "csrrw x1,pmpaddr0,x2"),
    (0xb005_24f3, "csrrs x9,mcycle,x10"),
    (0xb804_b573, "csrrc x10,mcycleh,x9"),
    (0xb02f_d073, "csrrwi x0,minstret,31"),
    (0xb820_6ff3, "csrrsi x31,minstreth,0"),
    (0xc001_70f3, "csrrci x1,cycle,2"),
    (0xc805_14f3, "csrrw x9,cycleh,x10"),
    (0xc014_a573, "csrrs x10,time,x9"),
    (0xc81f_b073, "csrrc x0,timeh,x31"),
    (0xc020_5ff3, "csrrwi x31,instret,0"),
    (0xc821_60f3, "csrrsi x1,instreth,2"),
    (0xf115_74f3, "csrrci x9,mvendorid,10"),
    (0xf124_9573, "csrrw x10,marchid,x9"),
    (0xf13f_a073, "csrrs x0,mimpid,x31"),
    (0xf140_3ff3, "csrrc x31,mhartid,x0"),
    (0xf151_50f3, "csrrwi x1,mconfigptr,2"),
    (0x0000_20f3, "csrrs x1,0x0,x0"),
    (0x7fff_bff3, "csrrc x31,0x7ff,x31"),
    (0xffff_f073, "csrrci x0,0xfff,31"),
    (0x0000_3003, ".word 0x00003003"),
];

/// Address, word and text: targets past the ends of the address space, for which objdump writes
/// `0x8`, `0xfffffffc` and `0x4`.
static WRAPPED: [(u32, u32, &str); 3] = [
    (0xffff_fff8, 0x0100_00ef, "jal x1,00000008"),
    (0x0000_0000, 0xffdf_f0ef, "jal x1,fffffffc"),
    (0xffff_fffc, 0x0020_8463, "beq x1,x2,00000004"),
];

fn texts() -> &'static [(u32, &'static str)] {
    &TEXTS
}

fn wrapped() -> &'static [(u32, u32, &'static str)] {
    &WRAPPED
}

fn has_text(addr: u32, word: u32, expected: &str) -> bool {
    let mut text = WordText::new();
    write_text(addr, word, &mut text);
    text.as_slice() == expected.as_bytes()
}

#[test]
fn words_have_the_texts_of_objdump(rt: HostRuntime) {
    for &(word, expected) in texts() {
        assert!(rt; has_text(0x8000_0000, word, expected), "{expected}");
    }
    for &(addr, word, expected) in wrapped() {
        assert!(rt; has_text(addr, word, expected), "{expected}");
    }
}
