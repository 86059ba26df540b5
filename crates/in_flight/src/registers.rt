//! The registers of the instruction that a word spells.

use known_words::OfWord;
use reservation_stations::{Destination, Registers, Source};
use rv_decode::decode;

/// What a word tells by itself: the registers of its instruction.
#[derive(Clone, Copy, Debug)]
pub struct WordRegisters {
    pub registers: Registers,
}

/// A word that spells no instruction has none.
impl OfWord for WordRegisters {
    ghost use Rattle.in_flight.specs.Registers.{registers_of};

    ghost of = { λ word. record { registers = registers_of word } };

    fn of_word(word: u32) -> WordRegisters {
        let registers = match decode(word) {
            Some(insn) => {
                let (first, second) = insn.sources();
                Registers {
                    sources: (Source::of(first), Source::of(second)),
                    destination: Destination::of(insn.dest()),
                }
            }
            None => Registers::none(),
        };
        WordRegisters { registers }
    }
}
