ghost use Rattle.std.specs.Prelude.{◌≡◌, ◌*◌, ◌^◌, ◌≤◌, ◌<◌, vec_len, IfOk, replicate, None};
ghost use Rattle.cache_timing.specs.Params.{IsInRange};
ghost use Rattle.cache_timing.specs.declared.ages.TheConstants.{START};

use crate::ages::{START, after_use, oldest};
use crate::last_line::LastLine;
use crate::number::{exponent, place_in};
use crate::params::CacheParams;
use fsim_base::NoMemory;
use std::alloc::Global;

/// A line that a cache holds.
#[derive(Clone, Copy, Debug, PartialEq, Eq)]
pub struct Line {
    /// Its first address over the length of a line.
    pub number: u32,
    /// Whether it was written since it came, and has to be written back when it is dropped.
    pub dirty: bool,
}

impl Line {
    ghost use Rattle.std.specs.Prelude.{◌||◌};

    /// The line after an access that makes it dirty or not.
    fn touched(self, writes: bool) -> Line
        ensures { result ≡ record self { dirty = writes || self.dirty } }
    {
        Line {
            number: self.number,
            dirty: writes || self.dirty,
        }
    }
}

/// What an access to a cache met.
#[derive(Clone, Copy, Debug, PartialEq, Eq)]
pub enum Touch {
    /// There is no cache.
    None,
    /// The line was there.
    Hit,
    /// The line was not there, and is there now.
    Miss {
        /// The first address of the dirty line that was dropped for it.
        dropped: Option<u32>,
    },
}

/// A cache that drops the line used longest ago.
#[derive(Debug, Drop)]
pub struct Cache {
    params: CacheParams,
    back: bool,
    /// A line has two to the power of this many bytes.
    line_bits: u32,
    /// The lines of the first set by their ways, then those of the second, and so on.
    lines: Vec<Option<Line>>,
    /// The ages of each set's ways.
    ages: Vec<u64>,
    /// The number of the line used last in each set: most accesses are of it again.
    latest: Vec<Option<u32>>,
    ghost in_range: { IsInRange params },
    ghost line_power: { params.line ≡ 2 ^ line_bits },
    ghost line_bits_most: { line_bits ≤ 8 },
    ghost every_line: { vec_len lines ≡ params.sets * params.ways },
    ghost every_set: { vec_len ages ≡ params.sets },
    ghost every_latest: { vec_len latest ≡ params.sets },
}

/// Ways that hold nothing.
fn empty_ways(alloc: Global, count: u32) -> Result<Vec<Option<Line>>, NoMemory>
    ensures { IfOk result (λ lines. lines.items ≡ replicate count None) }
{
    vec![in alloc; None; count as usize].map_err(|_| NoMemory)
}

/// The ages of sets of which no way was used.
fn start_ages(alloc: Global, count: u32) -> Result<Vec<u64>, NoMemory>
    ensures { IfOk result (λ ages. ages.items ≡ replicate count START) }
{
    vec![in alloc; START; count as usize].map_err(|_| NoMemory)
}

/// The latest lines of sets of which no way was used.
fn no_latest(alloc: Global, count: u32) -> Result<Vec<Option<u32>>, NoMemory>
    ensures { IfOk result (λ latest. latest.items ≡ replicate count None) }
{
    vec![in alloc; None; count as usize].map_err(|_| NoMemory)
}

impl Cache {
    ghost use Rattle.std.specs.Prelude.{ℕ, List, ◌-◌, ◌%◌, ◌≢◌, Bool, ◌&&◌, IfSome, IfNone, Some};
    ghost use Rattle.std.specs.Prelude.{IsTrue, false, ◌==◌, ◌↔◌};
    ghost use Rattle.cache_timing.specs.Cache.{no_lines, touched, touched_line, written_back};
    ghost use Rattle.cache_timing.specs.CacheStandsFor.{CacheStandsFor, IsPut};
    ghost use Rattle.cache_timing.specs.CacheStandsFor.{line_at, age_at, latest_at};

    /// A cache that holds nothing. It takes its memory here and none later.
    pub fn new(alloc: Global, p: CacheParams, back: bool) -> Result<Cache, NoMemory>
        requires in_range { IsInRange p }
        ensures empty { IfOk result (λ it. CacheStandsFor it p back no_lines) }
    {
        let lines = empty_ways(alloc, p.sets * p.ways)?;
        let ages = start_ages(alloc, p.sets)?;
        let latest = no_latest(alloc, p.sets)?;
        Ok(Cache {
            params: p,
            back,
            line_bits: exponent(p.line),
            lines,
            ages,
            latest,
        })
    }

    /// What a way of a set holds.
    fn line_at(&self, set: u32, way: u32) -> Option<Line>
        requires set_within { set < self.now.params.sets }
        requires way_within { way < self.now.params.ways }
        ensures { result ≡ line_at self.now set way }
    {
        self.lines[(set * self.params.ways + way) as usize]
    }

    /// The way of a set that holds the line of this number, with the line.
    fn find(&self, set: u32, number: u32) -> Option<(u32, Line)>
        requires set { set < self.now.params.sets }
        ensures within { IfSome result (λ found. found.0 < self.now.params.ways) }
        ensures there { IfSome result (λ found. line_at self.now set found.0 ≡ Some found.1) }
        ensures its_own { IfSome result (λ found. found.1.number ≡ number) }
        ensures missing { IfNone result
            ((way : ℕ) (held : Line) → way < self.now.params.ways → line_at self.now set way ≡ Some
            held → held.number ≢ number) }
    {
        for way in 0..self.params.ways {
            if let Some(line) = self.line_at(set, way)
                && line.number == number
            {
                return Some((way, line));
            }
        }
        None
    }

    /// The way of a set that was used longest ago.
    fn oldest(&self, set: u32) -> u32
        requires set_within { set < self.now.params.sets }
        requires some_way { 0 < self.now.params.ways }
        ensures within { result < self.now.params.ways }
        ensures oldest { (way : ℕ) → way < self.now.params.ways →
            age_at self.now set way ≡ self.now.params.ways - 1 →
            age_at self.now set result ≡ self.now.params.ways - 1 }
    {
        oldest(self.ages[set as usize], self.params.ways)
    }

    /// Whether an access makes its line dirty.
    fn makes_dirty(&self, write: bool) -> bool
        ensures { result ≡ (self.now.back && write) }
    {
        self.back && write
    }

    /// Uses a way of a set for a line.
    fn put(&mut self, set: u32, way: u32, line: Line)
        requires set_within { set < self.old.params.sets }
        requires way_within { way < self.old.params.ways }
        ensures { IsPut self.old self.new set way line }
    {
        let ways = self.params.ways;
        self.lines[(set * ways + way) as usize] = Some(line);
        let ages = self.ages[set as usize];
        self.ages[set as usize] = after_use(ages, ways, way);
        self.latest[set as usize] = Some(line.number);
    }

    /// The first address of what a way holds, where that is dirty.
    fn dirty_address(&self, set: u32, way: u32) -> Option<u32>
        requires set_within { set < self.now.params.sets }
        requires way_within { way < self.now.params.ways }
        ensures { (p : CacheParams) (back : Bool) (sets : ℕ → List Line)
            → CacheStandsFor self.now p back sets →
            result ≡ written_back p.line (line_at self.now set way) }
    {
        match self.line_at(set, way) {
            Some(line) if line.dirty => Some(line.number << self.line_bits),
            _ => None,
        }
    }

    /// Brings a line that a way holds to the front of its set.
    fn hit(&mut self, set: u32, way: u32, held: Line, writes: bool)
        requires place { set ≡ held.number % self.old.params.sets }
        requires set_within { set < self.old.params.sets }
        requires way_within { way < self.old.params.ways }
        requires held { line_at self.old set way ≡ Some held }
        ensures met { (p : CacheParams) (back : Bool) (sets : ℕ → List Line)
            → CacheStandsFor self.old p back sets →
            (touched_line p held.number writes sets).touch ≡ Touch.Hit }
        ensures kept { (p : CacheParams) (back : Bool) (sets : ℕ → List Line)
            → CacheStandsFor self.old p back sets →
            CacheStandsFor self.new p back (touched_line p held.number writes sets).sets }
    {
        self.put(set, way, held.touched(writes));
    }

    /// Puts a line that its set lacks in front of it. The result is the first address of the dirty
    /// line that is dropped.
    fn miss(&mut self, set: u32, line: Line) -> Option<u32>
        requires place { set ≡ line.number % self.old.params.sets }
        requires set_within { set < self.old.params.sets }
        requires some_way { 0 < self.old.params.ways }
        requires missing { (way : ℕ) (held : Line) → way < self.old.params.ways →
            line_at self.old set way ≡ Some held →
            held.number ≢ line.number }
        requires fits { line.number * self.old.params.line < 2 ^ 32 }
        ensures met { (p : CacheParams) (back : Bool) (sets : ℕ → List Line)
            → CacheStandsFor self.old p back sets →
            (touched_line p line.number line.dirty sets).touch ≡ Touch.Miss result }
        ensures kept { (p : CacheParams) (back : Bool) (sets : ℕ → List Line)
            → CacheStandsFor self.old p back sets →
            CacheStandsFor self.new p back (touched_line p line.number line.dirty sets).sets }
    {
        let way = self.oldest(set);
        let dropped = self.dirty_address(set, way);
        self.put(set, way, line);
        dropped
    }

    /// An access to the line of this number, which makes it dirty or not.
    fn access_line(&mut self, number: u32, writes: bool) -> Touch
        requires some_way { 0 < self.old.params.ways }
        requires fits { number * self.old.params.line < 2 ^ 32 }
        ensures met { (p : CacheParams) (back : Bool) (sets : ℕ → List Line)
            → CacheStandsFor self.old p back sets →
            (touched_line p number writes sets).touch ≡ result }
        ensures kept { (p : CacheParams) (back : Bool) (sets : ℕ → List Line)
            → CacheStandsFor self.old p back sets →
            CacheStandsFor self.new p back (touched_line p number writes sets).sets }
    {
        let set = place_in(self.params.sets, number);
        match self.find(set, number) {
            Some((way, held)) => {
                self.hit(set, way, held, writes);
                Touch::Hit
            }
            None => {
                let line = Line {
                    number,
                    dirty: writes,
                };
                let dropped = self.miss(set, line);
                Touch::Miss { dropped }
            }
        }
    }

    /// Whether there is no cache.
    #[inline(always)]
    pub(crate) fn is_absent(&self) -> bool
        ensures { result ≡ (self.now.params.ways == 0) }
    {
        self.params.ways == 0
    }

    /// Whether the line of this number is the one used last in its set.
    #[inline(always)]
    fn is_latest_line(&self, number: u32) -> bool
        ensures { IsTrue result ↔
            latest_at self.now (number % self.now.params.sets) ≡ Some number }
    {
        self.latest[place_in(self.params.sets, number) as usize] == Some(number)
    }

    /// Whether an address lies in the line used last in its set. Reading there is a hit that
    /// leaves the cache as it is, so it needs no search.
    #[inline(always)]
    pub(crate) fn is_latest(&self, addr: u32) -> bool
        ensures hit { IsTrue result → (p : CacheParams) (back : Bool) (sets : ℕ → List Line)
            → CacheStandsFor self.now p back sets →
            (touched p back sets addr false).touch ≡ Touch.Hit }
        ensures kept { IsTrue result → (p : CacheParams) (back : Bool) (sets : ℕ → List Line)
            → CacheStandsFor self.now p back sets →
            CacheStandsFor self.now p back (touched p back sets addr false).sets }
    {
        self.is_latest_line(addr >> self.line_bits)
    }

    /// The line that an address lies in.
    #[inline(always)]
    pub(crate) fn line_around(&self, addr: u32) -> LastLine
        ensures addr { result.addr ≡ addr }
        ensures length { result.length ≡ self.now.params.line }
    {
        LastLine::around(addr, self.params.line)
    }

    /// An access to an address. `Touch::None` comes exactly where the cache has no ways. An access
    /// of its set's latest line that doesn't make it dirty needs no search.
    pub fn access(&mut self, addr: u32, write: bool) -> Touch
        ensures touch { (p : CacheParams) (back : Bool) (sets : ℕ → List Line)
            → CacheStandsFor self.old p back sets →
            result ≡ (touched p back sets addr write).touch }
        ensures sets { (p : CacheParams) (back : Bool) (sets : ℕ → List Line)
            → CacheStandsFor self.old p back sets →
            CacheStandsFor self.new p back (touched p back sets addr write).sets }
    {
        if self.is_absent() {
            return Touch::None;
        }
        let number = addr >> self.line_bits;
        let writes = self.makes_dirty(write);
        if !writes && self.is_latest_line(number) {
            return Touch::Hit;
        }
        self.access_line(number, writes)
    }
}
