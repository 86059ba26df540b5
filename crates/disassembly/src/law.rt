ghost use Rattle.std.specs.Prelude.{◌≡◌, ◌≢◌, ◌↔◌, ◌^◌, ◌<◌, ℕ, [], None, IsSome, All, AllPairs};
ghost use Rattle.std.specs.Option.{option_map};
ghost use Rattle.rv_decode.specs.Decode.{decode_of};
ghost use Rattle.machine_csr.specs.Csr.{row_at};
ghost use Rattle.disassembly.specs.Mnemonic.{mnemonics};
ghost use Rattle.disassembly.specs.CsrName.{csr_names, name_at};
ghost use Rattle.disassembly.specs.Text.{what_counts, word_text};

/// The laws of the names.
#[tactic(auto, using(crate::proofs::Names::mnemonics_apart, crate::proofs::Names::mnemonics_given, crate::proofs::Names::csr_named, crate::proofs::Names::csr_names_apart))]
pub fn each_row_has_its_name()
    // Each row of the instruction table has a mnemonic, and no two rows have the same.
    ensures given { (word : ℕ) → All (λ name. name ≢ []) (mnemonics word) }
    ensures apart { (word : ℕ) → AllPairs (λ name other. name ≢ other) (mnemonics word) }
    // A CSR has a name exactly if it is in the table of CSRs, and no two have the same.
    ensures csr { (csr : ℕ) → IsSome (name_at csr) ↔ IsSome (row_at csr) }
    ensures csrs_apart { AllPairs (λ name other. name ≢ other) csr_names }
{}

/// The law of the text.
#[tactic(auto, using(crate::proofs::Tells::instruction_told, crate::proofs::Tells::number_told))]
pub fn text_tells_the_instruction()
    // Two words with the same text at an address make the same instruction, but for the fields of
    // FENCE and FENCE.I that don't count.
    ensures insn { (addr word other : ℕ) → word < 2 ^ 32 → other < 2 ^ 32 →
        word_text addr word ≡ word_text addr other →
        option_map what_counts (decode_of word) ≡ option_map what_counts (decode_of other) }
    // If one of them is no instruction, they are the same word.
    ensures number { (addr word other : ℕ) → word < 2 ^ 32 → other < 2 ^ 32 →
        word_text addr word ≡ word_text addr other → decode_of word ≡ None → word ≡ other }
{}
