use crate::{KnownWords, OfWord};
use std::test::Fail;

/// The lowest byte of a word.
#[derive(Clone, Copy, Debug, PartialEq, Eq)]
struct Lowest {
    byte: u8,
}

impl OfWord for Lowest {
    ghost use Rattle.std.specs.Prelude.{◌%◌};

    ghost of = { λ word. record { byte = word % 256 } };

    fn of_word(word: u32) -> Lowest {
        Lowest {
            byte: (word % 256) as u8,
        }
    }
}

#[test]
fn each_word_tells_its_own(rt: HostRuntime) -> Result<(), Fail> {
    let mut words = KnownWords::<Lowest>::new(rt.alloc())?;
    for (addr, word, byte) in [
        // The first words of a text, then the first again, at its address.
        (0x8000_0000, 0x1234_5678, 0x78),
        (0x8000_0004, 0xffff_ff01, 0x01),
        (0x8000_0000, 0x1234_5678, 0x78),
        // Another word at its place, and the first back there.
        (0x8000_0000, 0x1234_5679, 0x79),
        (0x8000_0000, 0x1234_5678, 0x78),
        // 16 KiB on: the same place.
        (0x8000_4000, 0xdead_beef, 0xef),
        (0x8000_0000, 0x1234_5678, 0x78),
        // A place that keeps word 0 from the start.
        (0xffff_fffc, 0, 0),
        (0xffff_fffc, u32::MAX, 0xff),
    ] {
        let told = words.told(addr, word);
        assert_eq!(rt; told.byte, byte, "{word:#x} at {addr:#x}");
    }
    Ok(())
}
