//! The text of instruction words, as a disassembler writes it. It takes no memory.
#![tactic(auto)]

mod law;
mod mnemonic;
mod operand;
#[cfg(test)]
mod tests;
mod text;
mod writing;

pub use law::{each_row_has_its_name, text_tells_the_instruction};
pub use text::{LONGEST, WordText};
pub use writing::write_text;
