//! The mnemonics of instructions that share an opcode, by funct3. Each takes the values that have
//! a row.
ghost use Rattle.std.specs.Prelude.{◌≡◌, ◌≢◌, ◌≤◌, ◌<◌, ◌⊎◌, length};
ghost use Rattle.std.specs.Bool.{OnTrue};
ghost use Rattle.disassembly.specs.Mnemonic.{by_funct3, branches, loads, stores, products};
ghost use Rattle.disassembly.specs.Mnemonic.{csr_forms, immediate_name, register_name};

/// BEQ to BGEU.
#[tactic(auto, unfolding(crate::specs::Mnemonic::branches))]
pub fn branch(kind: u8) -> &'static [u8]
    requires row { (kind < 8) × (kind ≢ 2) × (kind ≢ 3) }
    ensures name { result.now ≡ by_funct3 branches kind }
    ensures len { length result.now ≤ 4 }
{
    match kind {
        0 => b"beq",
        1 => b"bne",
        4 => b"blt",
        5 => b"bge",
        6 => b"bltu",
        7 => b"bgeu",
        _ => unreachable!(),
    }
}

/// LB to LHU.
#[tactic(auto, unfolding(crate::specs::Mnemonic::loads))]
pub fn load(kind: u8) -> &'static [u8]
    requires row { (kind < 6) × (kind ≢ 3) }
    ensures name { result.now ≡ by_funct3 loads kind }
    ensures len { length result.now ≤ 3 }
{
    match kind {
        0 => b"lb",
        1 => b"lh",
        2 => b"lw",
        4 => b"lbu",
        5 => b"lhu",
        _ => unreachable!(),
    }
}

/// SB, SH and SW.
#[tactic(auto, unfolding(crate::specs::Mnemonic::stores))]
pub fn store(kind: u8) -> &'static [u8]
    requires row { kind < 3 }
    ensures name { result.now ≡ by_funct3 stores kind }
    ensures len { length result.now ≤ 2 }
{
    match kind {
        0 => b"sb",
        1 => b"sh",
        2 => b"sw",
        _ => unreachable!(),
    }
}

/// ADDI to ANDI.
#[tactic(auto, unfolding(crate::specs::Mnemonic::immediate_forms))]
pub fn immediate_form(kind: u8, alt: bool) -> &'static [u8]
    requires row { kind < 8 }
    requires alternative { OnTrue alt (kind ≡ 5) }
    ensures name { result.now ≡ immediate_name kind alt }
    ensures len { length result.now ≤ 5 }
{
    match kind {
        0 => b"addi",
        1 => b"slli",
        2 => b"slti",
        3 => b"sltiu",
        4 => b"xori",
        5 if alt => b"srai",
        5 => b"srli",
        6 => b"ori",
        7 => b"andi",
        _ => unreachable!(),
    }
}

/// ADD to AND.
#[tactic(auto, unfolding(crate::specs::Mnemonic::register_forms))]
pub fn register_form(kind: u8, alt: bool) -> &'static [u8]
    requires row { kind < 8 }
    requires alternative { OnTrue alt ((kind ≡ 0) ⊎ (kind ≡ 5)) }
    ensures name { result.now ≡ register_name kind alt }
    ensures len { length result.now ≤ 4 }
{
    match kind {
        0 if alt => b"sub",
        0 => b"add",
        1 => b"sll",
        2 => b"slt",
        3 => b"sltu",
        4 => b"xor",
        5 if alt => b"sra",
        5 => b"srl",
        6 => b"or",
        7 => b"and",
        _ => unreachable!(),
    }
}

/// MUL to REMU.
#[tactic(auto, unfolding(crate::specs::Mnemonic::products))]
pub fn product(kind: u8) -> &'static [u8]
    requires row { kind < 8 }
    ensures name { result.now ≡ by_funct3 products kind }
    ensures len { length result.now ≤ 6 }
{
    match kind {
        0 => b"mul",
        1 => b"mulh",
        2 => b"mulhsu",
        3 => b"mulhu",
        4 => b"div",
        5 => b"divu",
        6 => b"rem",
        7 => b"remu",
        _ => unreachable!(),
    }
}

/// CSRRW, CSRRS and CSRRC.
#[tactic(auto, unfolding(crate::specs::Mnemonic::csr_forms))]
pub fn csr_form(kind: u8) -> &'static [u8]
    requires row { (kind < 4) × (kind ≢ 0) }
    ensures name { result.now ≡ by_funct3 csr_forms kind }
    ensures len { length result.now ≤ 5 }
{
    match kind {
        1 => b"csrrw",
        2 => b"csrrs",
        3 => b"csrrc",
        _ => unreachable!(),
    }
}

/// CSRRWI, CSRRSI and CSRRCI.
#[tactic(auto, unfolding(crate::specs::Mnemonic::csr_forms))]
pub fn csr_immediate_form(kind: u8) -> &'static [u8]
    requires row { (5 ≤ kind) × (kind < 8) }
    ensures name { result.now ≡ by_funct3 csr_forms kind }
    ensures len { length result.now ≤ 6 }
{
    match kind {
        5 => b"csrrwi",
        6 => b"csrrsi",
        7 => b"csrrci",
        _ => unreachable!(),
    }
}
