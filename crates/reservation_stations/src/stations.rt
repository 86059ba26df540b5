use crate::place_set::PlaceSet;
use crate::producer::Producer;
use crate::row::Row;
use crate::sets::Sets;
use crate::sought::Sought;
use crate::station::{Mark, Registers};
use crate::tables::{PRODUCER_PLACES, awaited, drop_producer, rename, set_producer, uncounted};
use crate::turn_set::{TURNS, TurnSet};
use fsim_base::NoMemory;
use std::alloc::Global;
use std::marker::Model;

/// The instructions of the window that are under way, the oldest first, and which of them wait for
/// an operand.
///
/// Each register is renamed to its producer, the youngest station that writes it. A station misses
/// an operand where its source's producer wasn't done when it entered, until that wakes it or
/// leaves. Each station has a turn, its place plus how many retired, modulo 256, which doesn't
/// change while it is there.
#[derive(Debug, Drop)]
pub struct Stations {
    /// For each turn, the index of the station that took it last.
    at_turn: [u8; TURNS],
    /// How many stations there are. The oldest has the turn `retired`.
    count: u32,
    /// What each index keeps of the station that holds it.
    rows: Vec<Row>,
    /// The index of each register's producer, where it has one that isn't done.
    producers: [Producer; PRODUCER_PLACES],
    /// How many wait.
    waiting: u32,
    /// By their turns, which wait, which execute and which miss operands.
    sets: Sets,
    /// How many stations retired, modulo 256.
    retired: u8,
}

impl Model for Stations {
    ghost use Rattle.std.specs.Prelude.{◌≡◌, length};
    ghost use Rattle.reservation_stations.specs.Readiness.{Window};
    ghost use Rattle.reservation_stations.specs.Turns.{indices_from};
    ghost use Rattle.reservation_stations.specs.AreTables.{AreTables, stations_at, row_at};
    ghost use Rattle.reservation_stations.specs.Places.{AreTurned};
    ghost use Rattle.reservation_stations.specs.AreSets.{AreSetsOf};

    ghost Value = { Window };

    ghost view = { λ s. record {
      capacity = length s.rows.items;
      stations = stations_at (row_at s.rows.items)
          (indices_from s.at_turn s.retired s.count);
    } };

    ghost invariant = { λ s.
        AreTables (length s.rows.items) (indices_from s.at_turn s.retired s.count)
        s.rows.items s.producers s.waiting
        × AreTurned s.retired (indices_from s.at_turn s.retired s.count) s.rows.items
        × AreSetsOf (length s.rows.items) s.retired (stations_at (row_at s.rows.items)
        (indices_from s.at_turn s.retired s.count)) s.sets
        × (length s.at_turn ≡ 256) };
}

impl Stations {
    ghost use Rattle.std.specs.Prelude.{◌+◌, ◌≡◌, ◌≢◌, ◌<◌, ◌≤◌, ◌++◌, ◌∷◌, [], ℕ, false};
    ghost use Rattle.std.specs.Prelude.{length, take, drop, slice_get, All, AllPairs};
    ghost use Rattle.std.specs.Prelude.{IsTrue, IsSome, IsNone, IfSome, IfNone, IfOk};
    ghost use Rattle.std.specs.Prelude.{if◌then◌else◌};
    ghost use Rattle.reservation_stations.specs.Readiness.{Window, station_of, mark_of};
    ghost use Rattle.reservation_stations.specs.Readiness.{oldest_index, oldest_mark};
    ghost use Rattle.reservation_stations.specs.Readiness.{is_sought_at};
    ghost use Rattle.reservation_stations.specs.Readiness.{marked, entered, waiting_count};
    ghost use Rattle.reservation_stations.specs.PlaceSet.{has};

    /// No stations, with so many indices. All memory is taken here, and none later.
    pub fn new(alloc: Global, capacity: u32) -> Result<Stations, NoMemory>
        requires limit { capacity ≤ 256 }
        ensures empty { IfOk result (λ it. it ≡ record { capacity = capacity; stations = [] }) }
    {
        let Ok(rows) = vec![in alloc; Row::free(); capacity as usize] else {
            return Err(NoMemory);
        };
        let sets = Sets::new(alloc, capacity)?;
        Ok(Stations {
            at_turn: [0; TURNS],
            count: 0,
            rows,
            producers: [Producer::none(); PRODUCER_PLACES],
            waiting: 0,
            sets,
            retired: 0,
        })
    }

    /// How many stations there are.
    pub fn len(&self) -> u32
        ensures count { result ≡ length self.now.stations }
        ensures room { length self.now.stations ≤ self.now.capacity }
        ensures limit { self.now.capacity ≤ 256 }
        ensures within { All (λ station. station.index < self.now.capacity) self.now.stations }
        ensures distinct { AllPairs (λ older younger. older.index ≢ younger.index)
            self.now.stations }
    {
        self.count
    }

    /// How many stations wait.
    pub fn waiting(&self) -> u32
        ensures count { result ≡ waiting_count self.now.stations }
    {
        self.waiting
    }

    /// Appends the station of an instruction with these registers, which waits, at an index that no
    /// station holds. They are copied into its row as they stand.
    #[inline(always)]
    pub fn enter(&mut self, index: u32, registers: &Registers)
        requires within { index < self.old.capacity }
        requires free { IsNone (station_of index self.old.stations) }
        ensures entered { self.new ≡ record self.old {
          stations = self.old.stations ++ entered index registers.now.sources.0
              registers.now.sources.1 registers.now.destination ∷ [];
        } }
    {
        let Registers {
            sources: (first_source, second_source),
            destination,
        } = *registers;
        let first = awaited(&self.producers, first_source);
        let second = awaited(&self.producers, second_source);
        let turn = ((u32::from(self.retired) + self.count) % TURNS as u32) as u8;
        set_producer(&mut self.producers, destination, Producer::of(index));
        self.rows[index as usize] = Row {
            registers: Registers {
                sources: (first_source, second_source),
                destination,
            },
            mark: Mark::Waiting,
            turn,
        };
        self.at_turn[turn as usize] = index as u8;
        self.count += 1;
        self.waiting += 1;
        // The sets come last, so that the host saves no registers over the work on them.
        self.sets.enter(turn, first, second);
    }

    /// Lets a station that waits execute.
    pub fn issue(&mut self, index: u32)
        requires waiting { mark_of index self.old.stations ≡ Some Mark.Waiting }
        ensures issued { self.new ≡ record self.old {
          stations = marked index Mark.Issued self.old.stations;
        } }
    {
        self.sets.begin(self.rows[index as usize].turn);
        self.rows[index as usize].mark = Mark::Issued;
        self.waiting -= 1;
    }

    /// Ends the execution of a station, with a fault or without. Without one, its destination has a
    /// value from now on.
    pub fn wake(&mut self, index: u32, faulted: bool)
        requires issued { mark_of index self.old.stations ≡ Some Mark.Issued }
        ensures woken { self.new ≡ record self.old {
          stations = marked index (if faulted then Mark.Faulted else Mark.Done) self.old.stations;
        } }
    {
        self.sets.finish(self.rows[index as usize].turn);
        if faulted {
            self.rows[index as usize].mark = Mark::Faulted;
        } else {
            let destination = self.rows[index as usize].registers.destination;
            self.rows[index as usize].mark = Mark::Done;
            // Where it writes no register, it is no producer, and none awaits its value.
            if destination.is_some() {
                drop_producer(&mut self.producers, destination, index);
                self.sets.tell(index);
            }
        }
    }

    /// Removes the oldest station, whose index is given. Those that waited for it take the
    /// committed register.
    #[inline(always)]
    pub fn retire(&mut self, index: u32)
        requires oldest { oldest_index self.old.stations ≡ Some index }
        ensures retired { self.new ≡ record self.old { stations = drop 1 self.old.stations } }
    {
        let mark = self.rows[index as usize].mark;
        if mark.is_done() {
            self.retire_done();
        } else {
            self.retire_unfinished(index);
        }
    }

    /// Removes the oldest station, which is done: it is no producer and in none of the sets, and
    /// none awaits its value. So its index isn't asked for.
    #[inline(always)]
    pub fn retire_done(&mut self)
        requires done { oldest_mark self.old.stations ≡ Some Mark.Done }
        ensures retired { self.new ≡ record self.old { stations = drop 1 self.old.stations } }
    {
        self.count -= 1;
        self.retired = self.retired.wrapping_add(1);
    }

    /// Removes the oldest station, and what the tables and sets have of it, whatever its mark. It
    /// stays a call: one that is done leaves without it.
    #[inline(never)]
    fn retire_unfinished(&mut self, index: u32)
        requires oldest { oldest_index self.old.stations ≡ Some index }
        ensures retired { self.new ≡ record self.old { stations = drop 1 self.old.stations } }
    {
        let Row {
            registers,
            mark,
            ..
        } = self.rows[index as usize];
        self.sets.retire(index, self.retired);
        self.waiting = uncounted(self.waiting, mark);
        drop_producer(&mut self.producers, registers.destination, index);
        self.count -= 1;
        self.retired = self.retired.wrapping_add(1);
    }

    /// Removes the stations from a place on.
    pub fn keep(&mut self, kept: u32)
        requires within { kept ≤ length self.old.stations }
        ensures kept { self.new ≡ record self.old { stations = take kept self.old.stations } }
    {
        self.count = kept;
        self.waiting = rename(
            &mut self.producers,
            &self.at_turn,
            &self.rows,
            self.retired,
            kept,
        );
        self.sets.keep(&TurnSet::turns_from(self.retired, kept));
    }

    /// The place in the list of the first station from a place on that is sought.
    #[inline(always)]
    pub fn first(&self, sought: Sought, from: u32) -> Option<u32>
        ensures behind { IfSome result (λ place. from ≤ place) }
        ensures found { IfSome result (λ place.
            IsTrue (is_sought_at sought self.now.stations place)) }
        ensures first { IfSome result (λ place. (k : ℕ) → from ≤ k → k < place →
            is_sought_at sought self.now.stations k ≡ false) }
        ensures none { IfNone result ((k : ℕ) → from ≤ k →
            is_sought_at sought self.now.stations k ≡ false) }
    {
        let mut block = from / 64 * 64;
        while block < self.count {
            let set = self.among(sought, block as u8);
            if let Some(place) = set.first_from(from) {
                return Some(place);
            }
            block += 64;
        }
        None
    }

    /// Among the 64 places from one on, those at which a station is sought.
    #[inline(always)]
    pub fn among(&self, sought: Sought, from: u8) -> PlaceSet
        requires inside { from ≤ 192 }
        ensures all { (place : ℕ) → from ≤ place → place < from + 64
            → has result place ≡ is_sought_at sought self.now.stations place }
        ensures others { (place : ℕ) → IsTrue (has result place)
            → (from ≤ place) × (place < from + 64) }
        ensures from { result.from ≡ from }
    {
        let turn = self.retired.wrapping_add(from);
        match sought {
            Sought::Ready => PlaceSet {
                from,
                word: self.sets.ready_from(turn),
            },
            Sought::Executing => PlaceSet {
                from,
                word: self.sets.executing_from(turn),
            },
        }
    }
}
