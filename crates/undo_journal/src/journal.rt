use crate::past::Past;
use crate::place::behind;
use fsim_base::NoMemory;
use std::alloc::Global;
use std::marker::Model;

/// The greatest room.
const MOST: u32 = 1 << 30;

/// Undo steps, the oldest first, with rising numbers and a fixed room.
#[derive(Debug, Drop)]
pub struct Journal {
    /// What holds the steps, one behind the other, and the first one again behind the last: as many
    /// places as a power of two.
    places: Vec<Past>,
    /// How many places there are, less one.
    mask: u32,
    /// How many steps have room.
    room: u32,
    /// The place of the oldest step.
    first: u32,
    /// How many steps there are.
    count: u32,
}

impl Model for Journal {
    ghost use Rattle.undo_journal.specs.Journal.{Log};
    ghost use Rattle.undo_journal.specs.Ring.{held, IsRing};

    ghost Value = { Log };

    ghost view = { λ j. record { room = j.room; steps = held j.places.items j.first j.count } };

    ghost invariant = { λ j. IsRing j.places.items j.mask j.room j.first j.count };
}

impl Journal {
    ghost use Rattle.std.specs.Prelude.{◌≡◌, ◌↔◌, ◌<◌, ◌≤◌, ◌++◌, ◌∷◌, [], length, IsTrue, IsNone};
    ghost use Rattle.std.specs.Prelude.{IfOk, IfSome, IfNone, nat_lt, ◌-◌, take, drop, filter};
    ghost use Rattle.std.specs.List.{prefix_len};
    ghost use Rattle.undo_journal.specs.Journal.{IsRising, newest, from_number};

    /// An empty journal with room for `capacity` steps. All its memory is taken here. More than
    /// 2^30 steps are refused as if there were no memory for them.
    pub fn with_room(alloc: Global, capacity: u32) -> Result<Journal, NoMemory>
        ensures opening { IfOk result (λ j. j ≡ record { room = capacity; steps = [] }) }
    {
        if capacity > MOST {
            return Err(NoMemory);
        }
        let size = capacity.next_power_of_two();
        let Ok(places) = vec![in alloc; Past::BLANK; size as usize] else {
            return Err(NoMemory);
        };
        Ok(Journal {
            places,
            mask: size - 1,
            room: capacity,
            first: 0,
            count: 0,
        })
    }

    /// How many steps the journal holds.
    pub fn len(&self) -> u32
        ensures count { result ≡ length self.now.steps }
        ensures rising { IsRising self.now.steps }
    {
        self.count
    }

    /// Whether there is no room for a further step.
    pub fn is_full(&self) -> bool
        ensures full { IsTrue result ↔ (length self.now.steps ≡ self.now.room) }
        ensures within { length self.now.steps ≤ self.now.room }
    {
        self.count == self.room
    }

    /// Adds a step, whose number is above the newest one's.
    #[inline(always)]
    pub fn note(&mut self, p: Past)
        requires room { length self.old.steps < self.old.room }
        requires above { IfSome (newest self.old.steps) (λ q. q.number < p.number) }
        ensures noted { self.new ≡ record self.old { steps = self.old.steps ++ p ∷ [] } }
    {
        let place = behind(self.first, self.count, self.mask);
        self.places[place as usize] = p;
        self.count += 1;
    }

    /// Removes the newest step and gives it; None where there is none.
    pub fn back(&mut self) -> Option<Past>
        ensures empty { IsNone result ↔ (self.old.steps ≡ []) }
        ensures newest { IfSome result (λ p. self.old ≡ record self.new
            { steps = self.new.steps ++ p ∷ [] }) }
        ensures none { IfNone result (self.new ≡ self.old) }
    {
        if self.count == 0 {
            return None;
        }
        self.count -= 1;
        let place = behind(self.first, self.count, self.mask);
        Some(self.places[place as usize])
    }

    /// The newest steps, at most so many, as far as they stand side by side. None only where the
    /// journal holds none or none are asked for.
    #[inline(always)]
    pub fn newest_run(&self, most: u64) -> &[Past]
        ensures newest { result.now
            ≡ drop (length self.now.steps - length result.now) self.now.steps }
        ensures within { length result.now ≤ length self.now.steps }
        ensures most { length result.now ≤ most }
        ensures some { 0 < most → 0 < length self.now.steps → 0 < length result.now }
    {
        if self.count == 0 {
            return &[];
        }
        let end = behind(self.first, self.count - 1, self.mask) + 1;
        let count = most.min(u64::from(self.count.min(end))) as u32;
        &self.places[(end - count) as usize..end as usize]
    }

    /// Removes so many of the newest steps, or all where there are fewer.
    #[inline(always)]
    pub fn drop_newest(&mut self, count: usize)
        ensures kept { self.new ≡ record self.old
            { steps = take (length self.old.steps - count) self.old.steps } }
    {
        self.count -= count.min(self.count as usize) as u32;
    }

    /// Removes the steps whose numbers are below `n`.
    pub fn drop_below(&mut self, n: u64)
        ensures kept { self.new ≡ record self.old { steps = from_number n self.old.steps } }
    {
        let below = self.count_below(n);
        self.drop_oldest(u64::from(below));
    }

    /// Removes so many of the oldest steps, or all where there are fewer.
    pub fn drop_oldest(&mut self, count: u64)
        ensures kept { self.new ≡ record self.old { steps = drop count self.old.steps } }
    {
        let gone = count.min(u64::from(self.count)) as u32;
        self.first = behind(self.first, gone, self.mask);
        self.count -= gone;
    }

    /// How many bytes of output the steps take back.
    pub fn sent(&self) -> u32
        ensures bytes { result ≡ length (filter (λ past. past.out) self.now.steps) }
    {
        let mut sent = 0;
        for passed in 0..self.count {
            let place = behind(self.first, passed, self.mask);
            sent += u32::from(self.places[place as usize].out);
        }
        sent
    }

    /// How many steps have numbers below `n`. They stand first.
    fn count_below(&self, n: u64) -> u32
        ensures count { result ≡ prefix_len (λ p. nat_lt p.number n) self.now.steps }
        ensures within { result ≤ length self.now.steps }
        ensures rising { IsRising self.now.steps }
    {
        for below in 0..self.count {
            let place = behind(self.first, below, self.mask);
            if self.places[place as usize].number >= n {
                return below;
            }
        }
        self.count
    }
}
