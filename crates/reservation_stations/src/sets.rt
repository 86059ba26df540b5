//! What is known of each station by its turn: whether it waits, executes, and misses operands.
ghost use Rattle.std.specs.Prelude.{◌≡◌, ℕ, ◌+◌, ◌%◌, ◌<◌, ◌==◌, ◌&&◌, not, true, false, Bool};
ghost use Rattle.std.specs.Prelude.{vec_len, IfOk, if◌then◌else◌};
ghost use Rattle.std.specs.Option.{ForSome};
ghost use Rattle.std.specs.Int.{bit_at};
ghost use Rattle.reservation_stations.specs.TurnSet.{holds, IsBitOf};
ghost use Rattle.reservation_stations.specs.Noting.{Notes, Keeps};
ghost use Rattle.reservation_stations.specs.AreSets.{AreSets, Missing, nothing, awaits};
ghost use Rattle.reservation_stations.specs.AreSets.{fed, put};

use crate::producer::Producer;
use crate::turn_set::{TurnBit, TurnSet, bit_of};
use fsim_base::NoMemory;
use std::alloc::Global;

/// The turns of the stations of which something is true.
#[derive(Debug, Drop)]
pub struct Sets {
    /// Those that wait, for operands or a unit.
    waiting: TurnSet,
    /// Those that execute.
    executing: TurnSet,
    /// Those that miss an operand.
    short: TurnSet,
    /// Those that miss both, of two stations.
    both: TurnSet,
    /// For each index, those that await the value of its station.
    dependents: Vec<TurnSet>,
}

impl Sets {
    /// The sets of no stations, with so many indices.
    pub fn new(alloc: Global, capacity: u32) -> Result<Sets, NoMemory>
        ensures empty { IfOk result (λ it. AreSets capacity (λ turn. false) (λ turn. false)
            (λ turn. nothing) it) }
    {
        let Ok(dependents) = vec![in alloc; TurnSet::none(); capacity as usize] else {
            return Err(NoMemory);
        };
        Ok(Sets {
            waiting: TurnSet::none(),
            executing: TurnSet::none(),
            short: TurnSet::none(),
            both: TurnSet::none(),
            dependents,
        })
    }

    /// A station takes a turn. It waits, and awaits the values of these indices, if they are given.
    #[inline(always)]
    pub fn enter(&mut self, turn: u8, first: Producer, second: Producer)
        requires inside { ForSome first (λ index. index < vec_len self.old.dependents) }
        requires inside_second { ForSome second (λ index. index < vec_len self.old.dependents) }
        ensures entered { (capacity : ℕ) (waits executes : ℕ → Bool) (missed : ℕ → Missing)
            → missed turn ≡ nothing → AreSets capacity waits executes missed self.old
            → AreSets capacity (put turn true waits) executes
            (put turn (record { first = first; second = second }) missed) self.new }
    {
        let at = bit_of(turn);
        self.waiting.insert(at);
        if first.is_some() {
            self.short.insert(at);
            if first.are_two(second) {
                self.both.insert(at);
                note(&mut self.dependents, second.index(), at);
            }
            note(&mut self.dependents, first.index(), at);
        } else if second.is_some() {
            self.short.insert(at);
            note(&mut self.dependents, second.index(), at);
        }
    }

    /// The station of a turn waits no longer, and executes.
    #[inline(always)]
    pub fn begin(&mut self, turn: u8)
        ensures began { (capacity : ℕ) (waits executes : ℕ → Bool) (missed : ℕ → Missing)
            → AreSets capacity waits executes missed self.old
            → AreSets capacity (put turn false waits) (put turn true executes) missed self.new }
    {
        let at = bit_of(turn);
        self.waiting.remove(at);
        self.executing.insert(at);
    }

    /// The station of a turn executes no longer.
    #[inline(always)]
    pub fn finish(&mut self, turn: u8)
        ensures finished { (capacity : ℕ) (waits executes : ℕ → Bool) (missed : ℕ → Missing)
            → AreSets capacity waits executes missed self.old
            → AreSets capacity waits (put turn false executes) missed self.new }
    {
        self.executing.remove(bit_of(turn));
    }

    /// No station awaits the value of an index any longer.
    #[inline(always)]
    pub fn tell(&mut self, index: u32)
        requires inside { index < vec_len self.old.dependents }
        ensures told { (capacity : ℕ) (waits executes : ℕ → Bool) (missed : ℕ → Missing)
            → AreSets capacity waits executes missed self.old
            → AreSets capacity waits executes (λ turn. fed index (missed turn)) self.new }
    {
        let told = self.dependents[index as usize];
        // Those that missed this one alone miss none now.
        let mut all_there = told;
        all_there.take_out(&self.both);
        self.short.take_out(&all_there);
        self.both.take_out(&told);
        self.dependents[index as usize] = TurnSet::none();
    }

    /// The station of an index, which has this turn, leaves as the oldest.
    #[inline(always)]
    pub fn retire(&mut self, index: u32, turn: u8)
        requires inside { index < vec_len self.old.dependents }
        ensures retired { (capacity : ℕ) (waits executes : ℕ → Bool) (missed : ℕ → Missing)
            → AreSets capacity waits executes missed self.old
            → AreSets capacity (put turn false waits) (put turn false executes)
            (λ other. fed index (missed other)) self.new }
    {
        self.tell(index);
        let at = bit_of(turn);
        self.waiting.remove(at);
        self.executing.remove(at);
    }

    /// The stations of these turns stay, and no others.
    pub fn keep(&mut self, live: &TurnSet)
        ensures kept { (capacity : ℕ) (waits executes : ℕ → Bool) (missed : ℕ → Missing)
            → AreSets capacity waits executes missed self.old
            → AreSets capacity (λ turn. waits turn && holds live.now turn)
            (λ turn. executes turn && holds live.now turn)
            (λ turn. if holds live.now turn then missed turn else nothing) self.new }
    {
        self.waiting.keep(live);
        self.executing.keep(live);
        self.short.keep(live);
        self.both.keep(live);
        keep_each(&mut self.dependents, live);
    }

    /// Of the 64 turns from one on, around behind the last, those whose stations wait and miss no
    /// operand, as a word.
    #[inline(always)]
    pub fn ready_from(&self, turn: u8) -> u64
        ensures word { (k : ℕ) → k < 64 → (bit_at result k == 1) ≡ (holds self.now.waiting
            ((turn + k) % 256) && not (holds self.now.short ((turn + k) % 256))) }
    {
        self.waiting.word_from(turn) & !self.short.word_from(turn)
    }

    /// Of the 64 turns from one on, around behind the last, those whose stations execute, as a
    /// word.
    #[inline(always)]
    pub fn executing_from(&self, turn: u8) -> u64
        ensures word { (k : ℕ) → k < 64
            → (bit_at result k == 1) ≡ holds self.now.executing ((turn + k) % 256) }
    {
        self.executing.word_from(turn)
    }
}

/// Notes the turn of a bit among those that await the value of an index.
#[inline(always)]
fn note(dependents: &mut Vec<TurnSet>, on: u32, at: TurnBit)
    requires inside { on < vec_len dependents.old }
    requires within { at.word < 4 }
    ensures noted { (turn : ℕ) → IsBitOf turn at
        → Notes on turn dependents.old.items dependents.new.items }
{
    dependents[on as usize].insert(at);
}

/// Keeps these turns alone among those that await the value of each index.
fn keep_each(dependents: &mut Vec<TurnSet>, live: &TurnSet)
    ensures kept { Keeps live.now dependents.old.items dependents.new.items }
{
    for turns in dependents.iter_mut() {
        turns.keep(live);
    }
}
