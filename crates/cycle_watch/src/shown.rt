ghost use Rattle.std.specs.Prelude.{◌≡◌, ◌+◌, ◌&&◌, nat_lt, option_and_then};
ghost use Rattle.rv_decode.specs.Class.{dest_of};
ghost use Rattle.insight_model.specs.Sight.{Outcome, access_shown, class_shown, first_source_shown};
ghost use Rattle.insight_model.specs.Sight.{gives_value, insn_in, is_device_load_in, is_done_at};
ghost use Rattle.insight_model.specs.Sight.{is_executing_at, is_fence_i_shown, is_waiting_at};
ghost use Rattle.insight_model.specs.Sight.{ram_load, ram_store, second_source_shown, writes_shown};
ghost use Rattle.insight_model.specs.Facts.{is_redirecting};
ghost use Rattle.insight_model.specs.Accesses.{until_at};
ghost use Rattle.insight_model.specs.Profile.{is_taken};
ghost use Rattle.cycle_watch.specs.Shown.{progress_in, shown_in};

use fsim_base::{Access, Cause, Class, Spot, bits, wrap_add};
use rv_decode::{Insn, decode};

/// The opcode of FENCE and FENCE.I.
const FENCE: u32 = 0x0f;

/// How far an instruction has come as a cycle begins.
#[derive(Clone, Copy, Debug, PartialEq, Eq)]
pub enum Progress {
    /// It waits for its operands or a unit; in order, it is in Decode.
    Waiting,
    /// It executes until this cycle; in order, it is in Execute.
    Executing(u64),
    /// In order alone: it is in Memory until this cycle.
    Accessing(u64),
    /// It is done; in order, it is in Write.
    Done,
}

/// An instruction under way, as a cycle begins.
#[derive(Clone, Copy, Debug, PartialEq, Eq)]
pub struct Shown {
    /// Its address.
    pub addr: u32,
    /// Its word, if there is one to be fetched.
    pub word: Option<u32>,
    /// The address that was predicted to follow it.
    pub predicted: u32,
    /// The cycle in which it was fetched.
    pub since: u64,
    /// The address of the instruction after it. This and what follows is seen once it began.
    pub next: u32,
    /// Its load or store, as it was attempted.
    pub access: Access,
    /// Why it traps, if it does.
    pub cause: Option<Cause>,
    /// How far it has come.
    pub progress: Progress,
}

impl Shown {
    /// Its instruction, if its word is one.
    pub(crate) fn insn(&self) -> Option<Insn>
        ensures insn { result ≡ insn_in (shown_in self.now) }
    {
        decode(self.word?)
    }

    /// Which unit it waits for.
    pub(crate) fn class(&self) -> Class
        ensures class { result ≡ class_shown (shown_in self.now) }
    {
        match self.insn() {
            Some(insn) => insn.class(),
            None => Class::Alu,
        }
    }

    /// The registers that it reads.
    pub(crate) fn sources(&self) -> (Option<u8>, Option<u8>)
        ensures sources { result ≡ (
          first_source_shown (shown_in self.now),
          second_source_shown (shown_in self.now),
        ) }
    {
        match self.insn() {
            Some(insn) => insn.sources(),
            None => (None, None),
        }
    }

    /// The register that it writes.
    pub(crate) fn writes(&self) -> Option<u8>
        ensures writes { result ≡ option_and_then dest_of (insn_in (shown_in self.now)) }
    {
        self.insn()?.dest()
    }

    /// Whether it writes a register.
    pub(crate) fn writes_to(&self, register: u8) -> bool
        ensures writes { result ≡ writes_shown register (shown_in self.now) }
    {
        match self.writes() {
            Some(written) => written == register,
            None => false,
        }
    }

    /// Whether it is a FENCE.I.
    pub(crate) fn is_fence_i(&self) -> bool
        ensures fence { result ≡ is_fence_i_shown (shown_in self.now) }
    {
        match self.word {
            Some(word) if bits(word, 6, 0) == FENCE => {
                matches!(decode(word), Some(Insn::Fence { fetch: true, .. }))
            }
            _ => false,
        }
    }

    /// Whether it waits.
    pub(crate) fn is_waiting(&self) -> bool
        ensures waiting { result ≡ is_waiting_at (shown_in self.now).progress }
    {
        self.progress == Progress::Waiting
    }

    /// Whether it is done.
    pub(crate) fn is_done(&self) -> bool
        ensures done { result ≡ is_done_at (shown_in self.now).progress }
    {
        self.progress == Progress::Done
    }

    /// Its load or store, once it began.
    pub(crate) fn access(&self) -> Access
        ensures access { result ≡ access_shown (shown_in self.now) }
    {
        if self.is_waiting() {
            Access::Nothing
        } else {
            self.access
        }
    }

    /// The address of its load of RAM, if it is one and has no cause.
    pub(crate) fn ram_load(&self) -> Option<u32>
        ensures addr { result ≡ ram_load (shown_in self.now) }
    {
        match self.access {
            Access::Load {
                addr,
                spot: Spot::Ram,
                ..
            } if !self.is_waiting() && self.cause.is_none() => Some(addr),
            _ => None,
        }
    }

    /// The address of its store to RAM, if it is one and has no cause.
    pub(crate) fn ram_store(&self) -> Option<u32>
        ensures addr { result ≡ ram_store (shown_in self.now) }
    {
        match self.access {
            Access::Store {
                addr,
                spot: Spot::Ram,
                ..
            } if !self.is_waiting() && self.cause.is_none() => Some(addr),
            _ => None,
        }
    }

    /// Whether it is known to go elsewhere than to the next word. One with a cause goes nowhere.
    pub(crate) fn is_taken(&self) -> bool
        ensures taken { result ≡ is_taken (shown_in self.now) }
    {
        let next = if self.cause.is_none() { self.next } else { 0 };
        !self.is_waiting() && next != wrap_add(self.addr, 4)
    }

    /// Whether it is a load of a device, which is seen once it began.
    pub(crate) fn is_device_load(&self) -> bool
        ensures device { result ≡ is_device_load_in (access_shown (shown_in self.now)) }
    {
        matches!(
            self.access(),
            Access::Load {
                spot: Spot::Device,
                ..
            }
        )
    }

    /// Whether it gives a value to younger ones: once it is done without a cause; in order, from
    /// Memory on, but a load not before Write.
    pub(crate) fn gives_value(&self) -> bool
        ensures gives { result ≡ gives_value (shown_in self.now) }
    {
        match self.progress {
            Progress::Waiting | Progress::Executing(_) => false,
            Progress::Accessing(_) => self.class() != Class::Load && self.cause.is_none(),
            Progress::Done => self.cause.is_none(),
        }
    }

    /// Whether it is so early a cycle that fewer than so many went by since it was fetched.
    pub(crate) fn is_within(&self, cycle: u64, count: u64) -> bool
        ensures within { result ≡ nat_lt cycle (self.now.since + count) }
    {
        cycle < self.since || cycle - self.since < count
    }

    /// Whether it is found in this cycle to go elsewhere than predicted.
    pub(crate) fn is_redirecting(&self, cycle: u64) -> bool
        ensures redirecting { result ≡ is_redirecting cycle (shown_in self.now) }
    {
        match self.progress {
            Progress::Executing(end) => {
                end <= cycle && self.cause.is_none() && self.next != self.predicted
            }
            _ => false,
        }
    }
}

/// Whether an instruction that was at the one place began to execute where it is at the other.
pub(crate) fn has_begun(before: Progress, after: Progress) -> bool
    ensures begun { (o : Outcome) (p : Outcome)
        → result ≡ (is_waiting_at (progress_in before o) && is_executing_at (progress_in after p)) }
{
    before == Progress::Waiting && matches!(after, Progress::Executing(_))
}

/// Until when it executes, or is in Memory.
pub(crate) fn until_at(progress: Progress) -> u64
    ensures until { (o : Outcome) → result ≡ until_at (progress_in progress o) }
{
    match progress {
        Progress::Executing(end) | Progress::Accessing(end) => end,
        Progress::Waiting | Progress::Done => 0,
    }
}
