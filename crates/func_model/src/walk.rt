ghost use Rattle.std.specs.Prelude.{◌≡◌, ◌<◌, ◌≤◌, ◌+◌, ◌^◌, Option, Some, None, true, false, map};
ghost use Rattle.std.specs.Prelude.{IfOk, IfSome, length};

use crate::contents::Contents;
use device_bus::Device;
use fsim_base::NoMemory;
use mono_model::Setup;
use std::alloc::Global;
use trace_entry::Entry;
use undo_journal::{Journal, Past};

/// A walk along a path: what the machine holds at a position, and what leads back from there to
/// what is committed.
#[derive(Drop)]
pub struct Walk<D: Device> {
    /// How many orders that open an epoch were obeyed. It stands beside the contents' mtimecmp.
    pub epoch: u64,
    pub contents: Contents<D>,
    pub journal: Journal,
    /// The number of the next instruction.
    pub position: u64,
    /// The number of the first instruction that isn't committed.
    pub committed: u64,
    /// An instruction, by its number, and the time that it was given.
    pub given: Option<(u64, u64)>,
    pub is_stopped: bool,
    /// How many bytes of output have room: of what is committed, and in a run alone.
    pub limit: u32,
}

impl<D: Device> Walk<D> {
    ghost use Rattle.std.specs.Prelude.{List, ◌∷◌, []};
    ghost use Rattle.rollback_cmds.specs.declared.order.Order.{Order as SpecOrder};
    ghost use Rattle.rollback_cmds.specs.declared.order.Order.TheVariants.{Set, Interrupt, Time};
    ghost use Rattle.rollback_cmds.specs.declared.order.Order.TheVariants.{Stop, Sync};
    ghost use Rattle.mono_model.specs.declared.setup.Setup.{Setup as RunSetup};
    ghost use Rattle.device_bus.specs.Bus.{device_order};
    ghost use Rattle.mono_model.specs.Setup.{is_setup};
    ghost use Rattle.mono_model.specs.Path.{path, entry};
    ghost use Rattle.func_model.specs.Walk.{IsOnPath, WalkStandsFor, IsOnSomePath, CanGoTo};
    ghost use Rattle.func_model.specs.Walk.{IsSameBut, IsStanding, IsFresh, IsMoved};
    ghost use Rattle.func_model.specs.Walk.{bytes_before, given_at, IsForward, IsProduced};
    ghost use Rattle.func_model.specs.Walk.{noted_in};
    ghost use Rattle.undo_journal.specs.Journal.{newest};

    /// The walk at the start of a run. All memory of the run is taken here.
    pub fn new(alloc: Global, setup: &Setup, devices: Vec<D>) -> Result<Walk<D>, NoMemory>
        requires sound { is_setup setup.now ≡ true }
        requires order { map D.kind devices.items ≡ device_order }
        ensures stands { IfOk result (λ walk. WalkStandsFor setup.now [] walk) }
        ensures opening { IfOk result IsFresh }
    {
        // Ahead of what is committed are the window, the entry held for the next try, the ring, and
        // the entry computed last.
        let ahead = setup.params.core_window + setup.ring + 2;
        let journal = Journal::with_room(alloc, ahead)?;
        let contents = Contents::new(alloc, setup, ahead, devices)?;
        Ok(Walk {
            epoch: 0,
            contents,
            journal,
            position: 0,
            committed: 0,
            given: None,
            is_stopped: false,
            limit: setup.output,
        })
    }

    /// The time that the next instruction was given.
    fn time(&self) -> Option<u64>
        ensures time { result ≡ given_at self.now.given self.now.position }
    {
        match self.given {
            Some((number, time)) if number == self.position => Some(time),
            _ => None,
        }
    }

    /// Executes the next instruction, and notes what takes it back, unless it is committed.
    pub fn step(&mut self) -> Entry
        requires standing { IsStanding self.old }
        requires running { self.old.is_stopped ≡ false }
        requires room { self.old.position < self.old.committed + self.old.journal.room }
        requires bounded { self.old.position < 2 ^ 63 }
        ensures stands { (s : RunSetup) (os : List SpecOrder) → WalkStandsFor s os self.old
            → WalkStandsFor s os self.new }
        ensures entry { (s : RunSetup) (os : List SpecOrder) → WalkStandsFor s os self.old
            → result ≡ entry s os self.old.position }
        ensures position { self.new.position ≡ self.old.position + 1 }
        ensures others { IsSameBut self.old self.new }
    {
        let mut entry = Entry::BLANK;
        self.step_into(&mut entry);
        entry
    }

    /// The same, with the entry written over another one, where its reader finds it: the host has
    /// not to copy what it has just written.
    #[inline(always)]
    pub fn step_into(&mut self, to: &mut Entry)
        requires standing { IsStanding self.old }
        requires running { self.old.is_stopped ≡ false }
        requires room { self.old.position < self.old.committed + self.old.journal.room }
        requires bounded { self.old.position < 2 ^ 63 }
        ensures stands { (s : RunSetup) (os : List SpecOrder) → WalkStandsFor s os self.old
            → WalkStandsFor s os self.new }
        ensures entry { (s : RunSetup) (os : List SpecOrder) → WalkStandsFor s os self.old
            → to.new ≡ entry s os self.old.position }
        ensures position { self.new.position ≡ self.old.position + 1 }
        ensures others { IsSameBut self.old self.new }
    {
        if self.compute_into(to) || self.access_into(to) {
            return;
        }
        self.carry_out(to);
    }

    /// Executes the next instruction, as `step_into` does, where it is kept and changes at most a
    /// register and the next address, and says whether it did; nothing is done of any other.
    #[inline(always)]
    fn compute_into(&mut self, to: &mut Entry) -> bool
        requires standing { IsStanding self.old }
        requires running { self.old.is_stopped ≡ false }
        requires room { self.old.position < self.old.committed + self.old.journal.room }
        requires bounded { self.old.position < 2 ^ 63 }
        ensures produced { result ≡ true → (s : RunSetup) (os : List SpecOrder)
            → WalkStandsFor s os self.old → IsProduced s os self.old self.new (Some to.new) }
        ensures forward { result ≡ true → IsForward self.old self.new }
        ensures unchanged { result ≡ false → self.new ≡ self.old }
        ensures unwritten { result ≡ false → to.new ≡ to.old }
    {
        let Some((made, past)) = self.contents.compute(self.position, &self.epoch) else {
            return false;
        };
        *to = made;
        self.note(past);
        true
    }

    /// The same where the next instruction is kept and is a load or a store of RAM. It stays a call
    /// for both, as does what carries out all others: a computed step needs no frame of theirs.
    #[inline(never)]
    fn access_into(&mut self, to: &mut Entry) -> bool
        requires standing { IsStanding self.old }
        requires running { self.old.is_stopped ≡ false }
        requires room { self.old.position < self.old.committed + self.old.journal.room }
        requires bounded { self.old.position < 2 ^ 63 }
        ensures produced { result ≡ true → (s : RunSetup) (os : List SpecOrder)
            → WalkStandsFor s os self.old → IsProduced s os self.old self.new (Some to.new) }
        ensures forward { result ≡ true → IsForward self.old self.new }
        ensures unchanged { result ≡ false → self.new ≡ self.old }
        ensures unwritten { result ≡ false → to.new ≡ to.old }
    {
        self.load_into(to) || self.store_into(to)
    }

    /// The same where it is a load.
    #[inline(always)]
    fn load_into(&mut self, to: &mut Entry) -> bool
        requires standing { IsStanding self.old }
        requires running { self.old.is_stopped ≡ false }
        requires room { self.old.position < self.old.committed + self.old.journal.room }
        requires bounded { self.old.position < 2 ^ 63 }
        ensures produced { result ≡ true → (s : RunSetup) (os : List SpecOrder)
            → WalkStandsFor s os self.old → IsProduced s os self.old self.new (Some to.new) }
        ensures forward { result ≡ true → IsForward self.old self.new }
        ensures unchanged { result ≡ false → self.new ≡ self.old }
        ensures unwritten { result ≡ false → to.new ≡ to.old }
    {
        let time = self.time();
        let Some((made, past)) = self.contents.load(self.position, self.epoch, time) else {
            return false;
        };
        *to = made;
        self.note(past);
        true
    }

    /// The same where it is a store.
    #[inline(always)]
    fn store_into(&mut self, to: &mut Entry) -> bool
        requires standing { IsStanding self.old }
        requires running { self.old.is_stopped ≡ false }
        requires room { self.old.position < self.old.committed + self.old.journal.room }
        requires bounded { self.old.position < 2 ^ 63 }
        ensures produced { result ≡ true → (s : RunSetup) (os : List SpecOrder)
            → WalkStandsFor s os self.old → IsProduced s os self.old self.new (Some to.new) }
        ensures forward { result ≡ true → IsForward self.old self.new }
        ensures unchanged { result ≡ false → self.new ≡ self.old }
        ensures unwritten { result ≡ false → to.new ≡ to.old }
    {
        let Some((made, past)) = self.contents.store(self.position, self.epoch) else {
            return false;
        };
        *to = made;
        self.note(past);
        true
    }

    /// Executes what fetch finds at the next address, whatever that is, writes its entry, and notes
    /// what takes it back, unless it is committed.
    #[inline(never)]
    fn carry_out(&mut self, to: &mut Entry)
        requires standing { IsStanding self.old }
        requires running { self.old.is_stopped ≡ false }
        requires room { self.old.position < self.old.committed + self.old.journal.room }
        requires bounded { self.old.position < 2 ^ 63 }
        ensures produced { (s : RunSetup) (os : List SpecOrder) → WalkStandsFor s os self.old
            → IsProduced s os self.old self.new (Some to.new) }
        ensures forward { IsForward self.old self.new }
    {
        let fetched = self.contents.hart.fetch();
        let time = self.time();
        let (entry, past) = self
            .contents
            .carry_out(fetched, self.position, self.epoch, time);
        self.note(past);
        *to = entry;
    }

    /// Notes what takes the instruction back that was executed last, unless that is committed.
    #[inline(always)]
    fn note(&mut self, past: Past)
        requires bounded { self.old.position < 2 ^ 63 }
        requires room { self.old.committed ≤ self.old.position
            → length self.old.journal.steps < self.old.journal.room }
        requires above { self.old.committed ≤ self.old.position
            → IfSome (newest self.old.journal.steps) (λ q. q.number < past.number) }
        ensures noted { self.new ≡ noted_in past self.old }
    {
        let position = self.position;
        self.position = position + 1;
        if position >= self.committed {
            self.journal.note(past);
        }
    }

    /// Takes back, of the instructions that were executed last and not below instruction `n`, those
    /// that changed nothing beside a register, as far as their undo steps stand side by side.
    #[inline(always)]
    fn step_back_plain(&mut self, n: u64)
        requires holding { IsOnSomePath self.old }
        requires above { n < self.old.position }
        requires from { self.old.committed ≤ n }
        ensures holds { (s : RunSetup) (os : List SpecOrder) → IsOnPath s os self.old
            → IsOnPath s os self.new }
        ensures above { n ≤ self.new.position }
        ensures within { self.new.position ≤ self.old.position }
        ensures others { IsSameBut self.old self.new }
    {
        let steps = self.journal.newest_run(self.position - n);
        let count = steps.len() - self.contents.undo_plain(steps);
        self.journal.drop_newest(count);
        self.position -= count as u64;
    }

    /// Takes the instruction back that was executed last, whatever it changed. It stays a call:
    /// what most instructions changed needs no frame of it.
    #[inline(never)]
    fn step_back_by_call(&mut self)
        requires holding { IsOnSomePath self.old }
        requires above { self.old.committed < self.old.position }
        ensures holds { (s : RunSetup) (os : List SpecOrder) → IsOnPath s os self.old
            → IsOnPath s os self.new }
        ensures position { self.new.position + 1 ≡ self.old.position }
        ensures others { IsSameBut self.old self.new }
    {
        let Some(past) = self.journal.back() else {
            return;
        };
        self.contents.undo(past);
        self.position -= 1;
    }

    /// Takes instructions back, at least one, and none below instruction `n`. What is committed
    /// isn't taken back.
    #[inline(always)]
    fn step_back(&mut self, n: u64)
        requires holding { IsOnSomePath self.old }
        requires above { n < self.old.position }
        requires from { self.old.committed ≤ n }
        ensures holds { (s : RunSetup) (os : List SpecOrder) → IsOnPath s os self.old
            → IsOnPath s os self.new }
        ensures above { n ≤ self.new.position }
        ensures less { self.new.position < self.old.position }
        ensures others { IsSameBut self.old self.new }
    {
        self.step_back_plain(n);
        if self.position > n {
            self.step_back_by_call();
        }
    }

    /// Takes instructions back until instruction `n` is the next one. What is committed isn't taken
    /// back.
    fn go_back(&mut self, n: u64)
        requires holding { n < self.old.position → IsOnSomePath self.old }
        requires from { self.old.committed ≤ n }
        ensures holds { (s : RunSetup) (os : List SpecOrder) → IsOnPath s os self.old
            → IsOnPath s os self.new }
        ensures position { n < self.old.position → self.new.position ≡ n }
        ensures stays { self.old.position ≤ n → self.new ≡ self.old }
        ensures others { IsSameBut self.old self.new }
    {
        while self.position > n {
            self.step_back(n);
        }
    }

    /// Executes until instruction `n` is the next one.
    fn go_on(&mut self, n: u64)
        requires standing { self.old.position < n → IsStanding self.old }
        requires running { self.old.position < n → self.old.is_stopped ≡ false }
        requires room { n ≤ self.old.committed + self.old.journal.room }
        requires bounded { n < 2 ^ 63 }
        ensures stands { (s : RunSetup) (os : List SpecOrder) → WalkStandsFor s os self.old
            → WalkStandsFor s os self.new }
        ensures position { self.old.position ≤ n → self.new.position ≡ n }
        ensures stays { n < self.old.position → self.new ≡ self.old }
        ensures others { IsSameBut self.old self.new }
    {
        while self.position < n {
            self.step();
        }
    }

    /// Goes to instruction `n`, backwards by undoing or forwards by executing.
    fn go_to(&mut self, n: u64)
        requires able { CanGoTo n self.old }
        ensures holds { (s : RunSetup) (os : List SpecOrder) → WalkStandsFor s os self.old
            → IsOnPath s os self.new }
        ensures position { self.new.position ≡ n }
        ensures others { IsSameBut self.old self.new }
    {
        if n < self.position {
            self.go_back(n);
        } else {
            self.go_on(n);
        }
    }

    /// Makes `n` the number of the first instruction that isn't committed. What is below can't be
    /// taken back any more.
    #[inline(always)]
    pub fn commit(&mut self, n: u64)
        requires from { self.old.committed ≤ n }
        ensures holds { (s : RunSetup) (os : List SpecOrder) → IsOnPath s os self.old
            → length (path s os n).output ≤ s.output → IsOnPath s os self.new }
        ensures committed { self.new.committed ≡ n }
        ensures room { self.new.journal.room ≡ self.old.journal.room }
        ensures others { self.new ≡ record self.old { journal = self.new.journal; committed = n } }
    {
        self.journal.drop_oldest(n - self.committed);
        self.committed = n;
    }

    // The orders below stay calls: beside Commit they are rare, and it needs no frame of theirs.

    /// Instruction `n` stands at `addr`.
    #[inline(never)]
    pub fn set(&mut self, n: u64, addr: u32)
        requires able { CanGoTo n self.old }
        requires epoch { self.old.epoch < 2 ^ 63 }
        ensures stands { (s : RunSetup) (os : List SpecOrder) → WalkStandsFor s os self.old
            → WalkStandsFor s (Set n addr ∷ os) self.new }
        ensures moved { IsMoved n self.old.committed self.old.is_stopped self.old self.new }
    {
        self.go_to(n);
        self.contents.jump(addr);
        self.epoch += 1;
    }

    /// The timer interrupt is taken before instruction `n`, and committed.
    #[inline(never)]
    pub fn interrupt(&mut self, n: u64)
        requires able { CanGoTo n self.old }
        requires epoch { self.old.epoch < 2 ^ 63 }
        requires within { bytes_before self.old n ≤ self.old.limit }
        ensures stands { (s : RunSetup) (os : List SpecOrder) → WalkStandsFor s os self.old
            → WalkStandsFor s (Interrupt n ∷ os) self.new }
        ensures moved { IsMoved n n self.old.is_stopped self.old self.new }
    {
        self.go_to(n);
        self.commit(n);
        self.contents.interrupted();
        self.given = None;
        self.epoch += 1;
    }

    /// Instruction `n` is given a time.
    #[inline(never)]
    pub fn serve(&mut self, n: u64, time: u64)
        requires able { CanGoTo n self.old }
        requires epoch { self.old.epoch < 2 ^ 63 }
        ensures stands { (s : RunSetup) (os : List SpecOrder) → WalkStandsFor s os self.old
            → WalkStandsFor s (Time n time ∷ os) self.new }
        ensures moved { IsMoved n self.old.committed self.old.is_stopped self.old self.new }
    {
        self.go_to(n);
        self.given = Some((n, time));
        self.epoch += 1;
    }

    /// The run has ended before instruction `n`.
    #[inline(never)]
    pub fn stop(&mut self, n: u64)
        requires able { CanGoTo n self.old }
        requires epoch { self.old.epoch < 2 ^ 63 }
        ensures stands { (s : RunSetup) (os : List SpecOrder) → WalkStandsFor s os self.old
            → WalkStandsFor s (Stop n ∷ os) self.new }
        ensures moved { IsMoved n self.old.committed true self.old self.new }
    {
        self.go_to(n);
        self.is_stopped = true;
        self.epoch += 1;
    }

    /// Fetch sees memory as it stands before instruction `n`, which is committed.
    #[inline(never)]
    pub fn sync(&mut self, n: u64)
        requires able { CanGoTo n self.old }
        requires epoch { self.old.epoch < 2 ^ 63 }
        requires within { bytes_before self.old n ≤ self.old.limit }
        ensures stands { (s : RunSetup) (os : List SpecOrder) → WalkStandsFor s os self.old
            → WalkStandsFor s (Sync n ∷ os) self.new }
        ensures moved { IsMoved n n self.old.is_stopped self.old self.new }
    {
        self.go_to(n);
        self.commit(n);
        self.contents.sync();
        self.epoch += 1;
    }
}
