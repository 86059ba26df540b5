ghost use Rattle.std.specs.Prelude.{◌≡◌, ◌<◌, nat_lt, replicate, sum};
ghost use Rattle.std.specs.List.{list_any};
ghost use Rattle.insight_model.specs.Accesses.{rise};
ghost use Rattle.insight_model.specs.Profile.{column_place};
ghost use Rattle.cycle_watch.specs.Profiled.{added, cache_numbers, capped, column_in, counts_of};
ghost use Rattle.cycle_watch.specs.Profiled.{numbers_of, risen};

use cache_timing::CacheCounts;

/// What is counted of instructions, by what happened to them.
#[derive(Clone, Copy, Debug, PartialEq, Eq)]
pub(crate) enum Column {
    /// It retired.
    Retired,
    /// It left with a trap.
    Trapped,
    /// It retired and went elsewhere than on.
    Taken,
    /// It was appended.
    Fetched,
    /// It was squashed.
    Squashed,
    /// It was mispredicted.
    Mispredicted,
}

/// What was counted at an address. A count stands still at its largest value.
#[derive(Clone, Copy, Debug, PartialEq, Eq)]
pub(crate) struct ProfileRow {
    /// The word of the instruction that was appended last.
    pub word: u32,
    /// Instructions that retired, that trapped, and that retired and went elsewhere than on.
    pub retired: u64,
    pub trapped: u64,
    pub taken: u64,
    /// Instructions that were appended, squashed, mispredicted.
    pub fetched: u64,
    pub squashed: u64,
    pub mispredicted: u64,
    /// What the caches counted: accesses and misses of the first level for instructions, of that
    /// for data, of the second level, and write-backs.
    pub caches: [u64; 7],
    /// Cycles by what they were spent on.
    pub spent: [u64; 19],
}

/// How many numbers a row has.
pub(crate) const NUMBERS: usize = 33;

/// By how much counts of caches rose.
fn rise(before: &CacheCounts, after: &CacheCounts) -> [u64; 7]
    ensures rise { result ≡ cache_numbers (rise before.now after.now) }
{
    [
        after.icache_accesses.saturating_sub(before.icache_accesses),
        after.icache_misses.saturating_sub(before.icache_misses),
        after.dcache_accesses.saturating_sub(before.dcache_accesses),
        after.dcache_misses.saturating_sub(before.dcache_misses),
        after.l2_accesses.saturating_sub(before.l2_accesses),
        after.l2_misses.saturating_sub(before.l2_misses),
        after.writebacks.saturating_sub(before.writebacks),
    ]
}

/// Counts one more.
fn one_more(count: &mut u64)
    ensures more { count.new ≡ capped count.old 1 }
{
    *count = count.saturating_add(1);
}

impl ProfileRow {
    /// Nothing was counted.
    pub(crate) fn new() -> ProfileRow
        ensures word { result.word ≡ 0 }
        ensures counts { counts_of result ≡ replicate 13 0 }
        ensures spent { result.spent ≡ replicate 19 0 }
    {
        ProfileRow {
            word: 0,
            retired: 0,
            trapped: 0,
            taken: 0,
            fetched: 0,
            squashed: 0,
            mispredicted: 0,
            caches: [0; 7],
            spent: [0; 19],
        }
    }

    /// Counts an instruction to which this happened.
    pub(crate) fn count(&mut self, column: Column)
        ensures counts { counts_of self.new
            ≡ risen (counts_of self.old) (column_place (column_in column)) 1 }
        ensures word { self.new.word ≡ self.old.word }
        ensures spent { self.new.spent ≡ self.old.spent }
    {
        match column {
            Column::Retired => one_more(&mut self.retired),
            Column::Trapped => one_more(&mut self.trapped),
            Column::Taken => one_more(&mut self.taken),
            Column::Fetched => one_more(&mut self.fetched),
            Column::Squashed => one_more(&mut self.squashed),
            Column::Mispredicted => one_more(&mut self.mispredicted),
        }
    }

    /// Counts an instruction that was appended, and notes its word.
    pub(crate) fn append(&mut self, word: u32)
        ensures counts { counts_of self.new
            ≡ risen (counts_of self.old) (column_place (column_in Column.Fetched)) 1 }
        ensures word { self.new.word ≡ word }
        ensures spent { self.new.spent ≡ self.old.spent }
    {
        self.count(Column::Fetched);
        self.word = word;
    }

    /// Counts what an access counted in the caches.
    pub(crate) fn add_caches(&mut self, before: &CacheCounts, after: &CacheCounts)
        ensures added { self.new ≡ record self.old {
          caches = added self.old.caches (cache_numbers (rise before.now after.now));
        } }
    {
        let rise = rise(before, after);
        for place in 0..7 {
            self.caches[place] = self.caches[place].saturating_add(rise[place]);
        }
    }

    /// Counts cycles that were spent on the cause at a place.
    pub(crate) fn spend(&mut self, place: usize, cycles: u64)
        requires cause { place < 19 }
        ensures spent { self.new ≡ record self.old { spent = risen self.old.spent place cycles } }
    {
        self.spent[place] = self.spent[place].saturating_add(cycles);
    }

    /// The cycles of all causes.
    fn cycles(&self) -> u64
        ensures sum { result ≡ capped 0 (sum self.now.spent) }
    {
        let mut sum: u64 = 0;
        for spent in &self.spent {
            sum = spent.saturating_add(sum);
        }
        sum
    }

    /// The numbers of the row, in the order in which they are written.
    pub(crate) fn numbers(&self) -> [u64; NUMBERS]
        ensures numbers { result ≡ numbers_of self.now }
    {
        let mut numbers = [0; NUMBERS];
        numbers[0] = self.retired;
        numbers[1] = self.trapped;
        numbers[2] = self.taken;
        numbers[3] = self.fetched;
        numbers[4] = self.squashed;
        numbers[5] = self.mispredicted;
        numbers[6..13].copy_from_slice(&self.caches);
        numbers[13] = self.cycles();
        numbers[14..].copy_from_slice(&self.spent);
        numbers
    }

    /// Whether something was counted.
    pub(crate) fn is_some(&self) -> bool
        ensures some { result ≡ list_any (λ number. nat_lt 0 number) (numbers_of self.now) }
    {
        for number in &self.numbers() {
            if *number > 0 {
                return true;
            }
        }
        false
    }
}
