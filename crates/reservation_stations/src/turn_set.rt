//! A set of turns, in four words.
ghost use Rattle.std.specs.Prelude.{◌≡◌, ◌+◌, ◌-◌, ◌%◌, ◌<◌, ◌≤◌, ◌==◌, ◌&&◌, ◌||◌, not, ℕ};
ghost use Rattle.std.specs.Prelude.{false, nat_lt};
ghost use Rattle.std.specs.Int.{bit_at};
ghost use Rattle.reservation_stations.specs.TurnSet.{holds, IsBitOf};
ghost use Rattle.reservation_stations.specs.Places.{place_of};

/// How many turns there are. They go around behind the last, and a station keeps its own, so no
/// more stations are under way at once.
pub const TURNS: usize = 256;

/// A set of turns.
#[derive(Clone, Copy, Debug, PartialEq, Eq)]
pub struct TurnSet {
    /// Bit `turn % 64` of word `turn / 64` tells whether a turn is in the set.
    words: [u64; 4],
}

/// The word of a turn set that a turn stands in, and its bit there.
#[derive(Clone, Copy, Debug, PartialEq, Eq)]
pub struct TurnBit {
    /// Which word, of four.
    word: usize,
    /// The bit there alone.
    bit: u64,
}

/// The bit of a turn. To work it out once serves several sets.
#[inline(always)]
pub fn bit_of(turn: u8) -> TurnBit
    ensures within { result.word < 4 }
    ensures bit { IsBitOf turn result }
{
    TurnBit {
        word: usize::from(turn) / 64,
        bit: 1 << (turn % 64),
    }
}

impl TurnSet {
    /// The empty set.
    pub fn none() -> TurnSet
        ensures none { (turn : ℕ) → holds result turn ≡ false }
    {
        TurnSet { words: [0; 4] }
    }

    /// So many turns from one on, around behind the last.
    pub fn turns_from(from: u8, count: u32) -> TurnSet
        requires few { count ≤ 256 }
        ensures those { (turn : ℕ) → turn < 256
            → holds result turn ≡ nat_lt (place_of from turn) count }
    {
        let mut set = TurnSet::none();
        for place in 0..count {
            set.insert(bit_of(from.wrapping_add(place as u8)));
        }
        set
    }

    /// Puts the turn of a bit into the set.
    #[inline(always)]
    pub fn insert(&mut self, at: TurnBit)
        requires within { at.word < 4 }
        ensures inserted { (turn : ℕ) → IsBitOf turn at → (other : ℕ)
            → holds self.new other ≡ (holds self.old other || (other == turn)) }
    {
        self.words[at.word] |= at.bit;
    }

    /// Takes the turn of a bit out of the set.
    #[inline(always)]
    pub fn remove(&mut self, at: TurnBit)
        requires within { at.word < 4 }
        ensures removed { (turn : ℕ) → IsBitOf turn at → (other : ℕ)
            → holds self.new other ≡ (holds self.old other && not (other == turn)) }
    {
        self.words[at.word] &= !at.bit;
    }

    /// Takes the turns of another set out of it.
    #[inline(always)]
    pub fn take_out(&mut self, other: &TurnSet)
        ensures taken { (turn : ℕ)
            → holds self.new turn ≡ (holds self.old turn && not (holds other.now turn)) }
    {
        let [first, second, third, fourth] = self.words;
        let [no_first, no_second, no_third, no_fourth] = other.words;
        self.words = [
            first & !no_first,
            second & !no_second,
            third & !no_third,
            fourth & !no_fourth,
        ];
    }

    /// Keeps those of the turns that another set holds.
    #[inline(always)]
    pub fn keep(&mut self, other: &TurnSet)
        ensures kept { (turn : ℕ)
            → holds self.new turn ≡ (holds self.old turn && holds other.now turn) }
    {
        let [first, second, third, fourth] = self.words;
        let [in_first, in_second, in_third, in_fourth] = other.words;
        self.words = [
            first & in_first,
            second & in_second,
            third & in_third,
            fourth & in_fourth,
        ];
    }

    /// The 64 turns from one on, around behind the last, as a word: the first as its lowest bit.
    #[inline(always)]
    pub fn word_from(&self, turn: u8) -> u64
        ensures word { (k : ℕ) → k < 64
            → (bit_at result k == 1) ≡ holds self.now ((turn + k) % 256) }
    {
        let place = usize::from(turn) / 64;
        let next = (place + 1) % 4;
        joined(self.words[place], self.words[next], turn % 64)
    }
}

/// The upper bits of a word from one on, and above them the lower ones of the next.
#[inline(always)]
fn joined(word: u64, next: u64, from: u8) -> u64
    requires within { from < 64 }
    ensures word { (k : ℕ) → k + from < 64 → bit_at result k ≡ bit_at word (k + from) }
    ensures next { (k : ℕ) → k < 64 → 64 ≤ k + from
        → bit_at result k ≡ bit_at next (k + from - 64) }
{
    // A shift by 64 isn't one, so the next word goes up in two steps.
    (word >> from) | (next << 1 << (63 - from))
}
