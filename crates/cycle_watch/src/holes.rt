//! In order: why a stage is empty. A bubble keeps the cause that made it, until it has gone through
//! Write (Hennessy and Patterson, Computer Architecture, appendix C.2, stalls).
ghost use Rattle.std.specs.Prelude.{◌≡◌, ◌+◌, ◌-◌, ◌<◌, ◌≤◌, ◌&&◌, not, if◌then◌else◌, IfSome, Some, length, nat_le};
ghost use Rattle.std.specs.Prelude.{option_and_then, option_map, slice_get};
ghost use Rattle.insight_model.specs.declared.cycle_cause.CycleCause.TheVariants.{Dcache, Icache};
ghost use Rattle.insight_model.specs.Accesses.{until_at};
ghost use Rattle.insight_model.specs.Sight.{Outcome, Shown as ShownSeen, Sight, is_accessing_at};
ghost use Rattle.insight_model.specs.Sight.{is_done_at, is_executing_at, is_waiting_at, writes_shown};
ghost use Rattle.insight_model.specs.Facts.{facts as cycle_facts};
ghost use Rattle.insight_model.specs.Hole.{decode_cause, decode_stall, execute_stall, flushed_by};
ghost use Rattle.insight_model.specs.Hole.{flushed_holes};
ghost use Rattle.insight_model.specs.Hole.{has_in, holes_after, holes_start, is_source_withheld};
ghost use Rattle.insight_model.specs.Hole.{is_withheld};
ghost use Rattle.insight_model.specs.Hole.{memory_stall, moved_in, own_cause, past_decode};
ghost use Rattle.insight_model.specs.Hole.{stall_of, stays_in};
ghost use Rattle.insight_model.specs.Cause.{charge};
ghost use Rattle.insight_model.specs.Hole.{waits_to_be_oldest};
ghost use Rattle.cycle_watch.specs.Shown.{progress_in, shown_in};
ghost use Rattle.cycle_watch.specs.Facts.{IsTold, Keeps, charge_in};
ghost use Rattle.cycle_watch.specs.Known.{holes_in, kept_of, misses_in};
ghost use Rattle.cycle_watch.specs.Stages.{HasKept, is_in, kept_in};
ghost use Rattle.cycle_watch.specs.declared.mark.Mark.{Mark as MarkInCode};

use crate::charge::{Charge, own_cause};
use crate::facts::Facts;
use crate::last::LastSight;
use crate::mark::Mark;
use crate::shown::{Progress, Shown, until_at};
use crate::watched::Watched;
use fsim_base::Class;
use insight_model::CycleCause;

/// A stage of the in-order machine.
#[derive(Clone, Copy, Debug)]
pub(crate) enum Stage {
    Decode,
    Execute,
    Memory,
    Write,
}

/// Whether an instruction that has come so far is in the stage.
fn is_in(stage: Stage, progress: Progress) -> bool
    ensures stage { (o : Outcome) → result ≡ is_in stage (progress_in progress o) }
{
    match stage {
        Stage::Decode => progress == Progress::Waiting,
        Stage::Execute => matches!(progress, Progress::Executing(_)),
        Stage::Memory => matches!(progress, Progress::Accessing(_)),
        Stage::Write => progress == Progress::Done,
    }
}

/// Whether the instruction at a place is in the stage after the cycle.
fn is_at<S: Watched>(side: &S, place: usize, stage: Stage) -> bool
    requires within { place < length (S.sight side.now).window }
    ensures at { (x : ShownSeen) → slice_get (S.sight side.now).window place ≡ Some x
        → result ≡ is_in stage x.progress }
{
    is_in(stage, side.progress(place))
}

/// Whether the instruction at a place was in the stage before it.
fn was_at(last: &LastSight, place: usize, stage: Stage) -> bool
    requires within { place < length last.now.marks.items }
    ensures at { (mark : MarkInCode) → slice_get last.now.marks.items place ≡ Some mark
        → result ≡ is_in stage (shown_in mark.shown).progress }
{
    is_in(stage, last.mark(place).shown.progress)
}

/// Why each stage is empty, if it is.
#[derive(Clone, Copy, Debug, PartialEq, Eq)]
pub(crate) struct Holes {
    decode: Charge,
    execute: Charge,
    memory: Charge,
    pub write: Charge,
}

/// Whether the stage has an instruction after the cycle.
fn has_in<S: Watched>(side: &S, stage: Stage) -> bool
    ensures has { result ≡ has_in (is_in stage) (S.sight side.now).window }
{
    for place in 0..side.len() {
        if is_at(side, place, stage) {
            return true;
        }
    }
    false
}

/// The place of the instruction that stays in a stage, if one does.
fn stays_in<S: Watched>(last: &LastSight, facts: &Facts, side: &S, stage: Stage) -> Option<usize>
    requires kept { HasKept last.now facts.now (S.sight side.now).window }
    ensures stays { option_and_then
        (slice_get (kept_in last.now facts.now (S.sight side.now).window)) result
        ≡ stays_in (is_in stage) (kept_in last.now facts.now (S.sight side.now).window) }
    ensures within { IfSome result (λ place. place < facts.now.kept) }
{
    for place in 0..facts.kept {
        if was_at(last, facts.left + place, stage) {
            return if is_at(side, place, stage) {
                Some(place)
            } else {
                None
            };
        }
    }
    None
}

/// Whether a register is withheld: the youngest that is past Decode and writes it gives no value.
fn is_withheld<S: Watched>(side: &S, register: u8) -> bool
    ensures withheld { result ≡ is_withheld (past_decode (S.sight side.now).window) register }
{
    for place in (0..side.len()).rev() {
        let shown = side.shown(place);
        if is_writer(&shown, register) {
            return !shown.gives_value();
        }
    }
    false
}

/// Whether an instruction is past Decode and writes the register.
fn is_writer(shown: &Shown, register: u8) -> bool
    ensures writer { result ≡ (not (is_waiting_at (shown_in shown.now).progress)
        && writes_shown register (shown_in shown.now)) }
{
    !shown.is_waiting() && shown.writes_to(register)
}

/// Whether a source is withheld, if there is one.
fn is_source_withheld<S: Watched>(side: &S, source: Option<u8>) -> bool
    ensures withheld { result
        ≡ is_source_withheld (past_decode (S.sight side.now).window) source }
{
    match source {
        Some(register) => is_withheld(side, register),
        None => false,
    }
}

/// What an instruction with all its sources waits for in Decode: to be the oldest.
fn waits_to_be_oldest(class: Class) -> CycleCause
    ensures cause { result ≡ waits_to_be_oldest class }
{
    match class {
        Class::Serial => CycleCause::Serial,
        _ => CycleCause::Device,
    }
}

/// What an instruction waits for in Decode.
fn decode_cause<S: Watched>(side: &S, shown: &Shown) -> CycleCause
    ensures cause { result
        ≡ decode_cause (past_decode (S.sight side.now).window) (shown_in shown.now) }
{
    let (first, second) = shown.sources();
    if is_source_withheld(side, first) || is_source_withheld(side, second) {
        CycleCause::Operand
    } else {
        waits_to_be_oldest(shown.class())
    }
}

impl Holes {
    /// Before the first cycle of a run from this entry.
    #[tactic(auto, unfolding(insight_model::specs::Hole::holes_start))]
    pub(crate) fn start(entry: u32) -> Holes
        ensures start { holes_in result ≡ holes_start entry }
    {
        let start = Charge::new(CycleCause::Start, entry);
        Holes {
            decode: start,
            execute: start,
            memory: start,
            write: start,
        }
    }

    /// A flush empties stages.
    fn flushed(self, flush: Charge) -> Holes
        ensures flushed { holes_in result ≡ flushed_by flush.cause (charge_in flush) (holes_in self) }
    {
        match flush.cause {
            CycleCause::Interrupt => Holes {
                decode: flush,
                execute: flush,
                memory: flush,
                write: flush,
            },
            CycleCause::Trap | CycleCause::Fence => Holes {
                decode: flush,
                execute: flush,
                memory: flush,
                ..self
            },
            _ => Holes {
                decode: flush,
                ..self
            },
        }
    }

    /// The holes after a cycle, before which they were these.
    pub(crate) fn after<S: Watched>(self, last: &LastSight, facts: &Facts, side: &S) -> Holes
        requires kept { HasKept last.now facts.now (S.sight side.now).window }
        ensures after { (before : Sight) → Keeps before last.now
            → IsTold before (S.sight side.now) facts.now
            → holes_in result ≡ holes_after (cycle_facts before (S.sight side.now))
            (misses_in last.now.marks.items) (holes_in self) }
    {
        if facts.stopped {
            return self;
        }
        let holes = self.flushed_if(facts.flush);
        Holes {
            decode: holes.decode_after(facts, side),
            execute: holes.execute_after(last, facts, side),
            memory: holes.memory_after(last, facts, side),
            write: holes.write_after(last, facts, side),
        }
    }

    /// The holes after what flushed, if something did.
    fn flushed_if(self, flush: Option<Charge>) -> Holes
        ensures flushed { holes_in result
            ≡ flushed_holes (option_map charge_in flush) (holes_in self) }
    {
        match flush {
            Some(flush) => self.flushed(flush),
            None => self,
        }
    }

    /// The hole of Decode: fetch has nothing for it.
    fn decode_after<S: Watched>(&self, facts: &Facts, side: &S) -> Charge
        ensures hole { charge_in result
            ≡ (if has_in is_waiting_at (S.sight side.now).window then charge_in self.now.decode
            else charge Icache facts.now.fetch_at) }
    {
        if has_in(side, Stage::Decode) {
            self.decode
        } else {
            Charge::new(CycleCause::Icache, facts.fetch_at)
        }
    }

    /// The hole of Execute: it came from Decode, or an instruction makes it by staying there.
    fn execute_after<S: Watched>(&self, last: &LastSight, facts: &Facts, side: &S) -> Charge
        requires kept { HasKept last.now facts.now (S.sight side.now).window }
        ensures hole { charge_in result ≡ moved_in (has_in is_executing_at (S.sight side.now).window)
            (charge_in self.now.execute) (charge_in self.now.decode)
            (stall_of (decode_stall (past_decode (S.sight side.now).window))
            (stays_in is_waiting_at (kept_in last.now facts.now (S.sight side.now).window))) }
    {
        if has_in(side, Stage::Execute) {
            return self.execute;
        }
        match stays_in(last, facts, side, Stage::Decode) {
            Some(place) => decode_hole(side, place),
            None => self.decode,
        }
    }

    /// The hole of Memory.
    fn memory_after<S: Watched>(&self, last: &LastSight, facts: &Facts, side: &S) -> Charge
        requires kept { HasKept last.now facts.now (S.sight side.now).window }
        ensures hole { charge_in result ≡ moved_in (has_in is_accessing_at (S.sight side.now).window)
            (charge_in self.now.memory) (charge_in self.now.execute)
            (stall_of execute_stall
            (stays_in is_executing_at (kept_in last.now facts.now (S.sight side.now).window))) }
    {
        if has_in(side, Stage::Memory) {
            return self.memory;
        }
        match stays_in(last, facts, side, Stage::Execute) {
            Some(place) => execute_hole(side, place),
            None => self.execute,
        }
    }

    /// The hole of Write.
    fn write_after<S: Watched>(&self, last: &LastSight, facts: &Facts, side: &S) -> Charge
        requires kept { HasKept last.now facts.now (S.sight side.now).window }
        ensures hole { charge_in result ≡ moved_in (has_in is_done_at (S.sight side.now).window)
            (charge_in self.now.write) (charge_in self.now.memory)
            (stall_of (memory_stall facts.now.cycle)
            (stays_in is_accessing_at (kept_in last.now facts.now (S.sight side.now).window))) }
    {
        if has_in(side, Stage::Write) {
            return self.write;
        }
        match stays_in(last, facts, side, Stage::Memory) {
            Some(place) => memory_hole(last, facts, side, place),
            None => self.memory,
        }
    }
}

/// What the instruction at a place holds up by staying in Decode.
fn decode_hole<S: Watched>(side: &S, place: usize) -> Charge
    requires within { place < length (S.sight side.now).window }
    ensures hole { (is : ShownSeen) → slice_get (S.sight side.now).window place ≡ Some is
        → charge_in result
        ≡ charge (decode_cause (past_decode (S.sight side.now).window) is) is.addr }
{
    let shown = side.shown(place);
    Charge::new(decode_cause(side, &shown), shown.addr)
}

/// What the instruction at a place holds up by staying in Execute.
fn execute_hole<S: Watched>(side: &S, place: usize) -> Charge
    requires within { place < length (S.sight side.now).window }
    ensures hole { (is : ShownSeen) → slice_get (S.sight side.now).window place ≡ Some is
        → charge_in result ≡ charge (own_cause is) is.addr }
{
    let shown = side.shown(place);
    Charge::new(own_cause(&shown), shown.addr)
}

/// What the instruction at a place holds up by staying in Memory: by its miss as long as it would be
/// gone by now without it.
fn memory_hole<S: Watched>(last: &LastSight, facts: &Facts, side: &S, place: usize) -> Charge
    requires was { facts.now.left + place < length last.now.marks.items }
    requires few { facts.now.left + place ≤ 264 }
    requires here { place < length (S.sight side.now).window }
    ensures hole { (mark : MarkInCode) (is : ShownSeen)
        → slice_get last.now.marks.items (facts.now.left + place) ≡ Some mark
        → slice_get (S.sight side.now).window place ≡ Some is
        → charge_in result ≡ memory_stall facts.now.cycle (kept_of mark is, mark.miss) }
{
    let mark = last.mark(facts.left + place);
    let shown = side.shown(place);
    Charge::new(memory_cause(facts.cycle, mark, &shown), shown.addr)
}

/// The cause of that.
fn memory_cause(cycle: u64, mark: &Mark, shown: &Shown) -> CycleCause
    ensures cause { result
        ≡ (if nat_le (until_at (shown_in mark.now.shown).progress - cycle) mark.now.miss then Dcache
        else own_cause (shown_in shown.now)) }
{
    let rest = until_at(mark.shown.progress).saturating_sub(cycle);
    if rest <= mark.miss {
        CycleCause::Dcache
    } else {
        own_cause(shown)
    }
}
