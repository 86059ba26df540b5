ghost use Rattle.std.specs.Prelude.{◌≡◌, ℕ, vec_len, IfSome};

use fsim_base::NoMemory;
use std::alloc::{AllocError, Global};

/// How many words are kept: as many as 16 KiB of text have.
const KEPT: usize = 4096;

/// What a word tells by itself, wherever it stands.
pub trait OfWord: Copy {
    ghost of: { ℕ → Self };

    /// What this word tells.
    fn of_word(word: u32) -> Self
        ensures told { result ≡ of word };
}

/// A word and what it tells.
#[derive(Copy, Debug)]
struct KnownWord<T: OfWord> {
    word: u32,
    told: T,
    ghost known: { told ≡ T.of word },
}

impl<T: OfWord> Clone for KnownWord<T> {
    ghost is_clone = { λ it copy. copy ≡ it };

    fn clone(&self) -> Result<KnownWord<T>, AllocError> {
        Ok(*self)
    }
}

/// Words with what each tells, so that a word that comes again isn't taken apart again. A word is
/// looked for in the place that its address selects, and counts only where the place keeps this
/// very word: text that changes needs no place emptied.
#[derive(Debug, Drop)]
pub struct KnownWords<T: OfWord> {
    words: Vec<KnownWord<T>>,
    ghost every: { vec_len words ≡ 4096 },
}

impl<T: OfWord> KnownWords<T> {
    /// Word 0 in each place. All memory is taken here; want of it is the one refusal.
    pub fn new(alloc: Global) -> Result<KnownWords<T>, NoMemory> {
        let zero = KnownWord {
            word: 0,
            told: T::of_word(0),
        };
        let Ok(words) = vec![in alloc; zero; KEPT] else {
            return Err(NoMemory);
        };
        Ok(KnownWords { words })
    }

    /// What a word tells that stands at this address, where it is kept. Who has much to do behind
    /// it needs no frame for a word that is taken apart anew, and no copy of what is kept.
    #[inline(always)]
    pub fn find(&self, addr: u32, word: u32) -> Option<&T>
        ensures told { IfSome result (λ told. told.now ≡ T.of word) }
    {
        let known = &self.words[(addr / 4) as usize % KEPT];
        if known.word != word {
            return None;
        }
        Some(&known.told)
    }

    /// What a word tells that stands at this address. It is kept there from then on.
    #[inline(always)]
    pub fn told(&mut self, addr: u32, word: u32) -> T
        ensures told { result ≡ T.of word }
    {
        let place = (addr / 4) as usize % KEPT;
        if self.words[place].word == word {
            return self.words[place].told;
        }
        let told = T::of_word(word);
        self.words[place] = KnownWord { word, told };
        told
    }
}
