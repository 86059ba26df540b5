//! The pipeline trace of a run: in which stage each instruction is, cycle by cycle.
ghost use Rattle.std.specs.Prelude.{◌≡◌, ◌+◌, ◌-◌, ◌<◌, ◌≤◌, ◌^◌, ◌∷◌, ◌++◌, ℕ, [], IfOk, OnOk};
ghost use Rattle.std.specs.Prelude.{◌==◌, ◌&&◌, drop, length, map};
ghost use Rattle.std.specs.Prelude.{option_and_then, option_map, take};
ghost use Rattle.mono_model.specs.declared.params.Params.{Params as WhichParams};
ghost use Rattle.mono_model.specs.Report.{joined};
ghost use Rattle.insight_model.specs.declared.pipeline.Pipeline.{Pipeline as WhichPipeline};
ghost use Rattle.insight_model.specs.Sight.{Sight};
ghost use Rattle.insight_model.specs.Facts.{departed, facts as cycle_facts, pairs};
ghost use Rattle.insight_model.specs.Trace.{Tracing as TracingSeen, appended_lines, is_place};
ghost use Rattle.insight_model.specs.Trace.{kept_lines, kept_marks, left_lines, lines_in, opened};
ghost use Rattle.insight_model.specs.Trace.{opening_lines, producer, squashed_lines, time_lines};
ghost use Rattle.insight_model.specs.Trace.{tracing_after};
ghost use Rattle.fsim_ports.specs.Sink.{Puts};
ghost use Rattle.cycle_watch.specs.Facts.{Follows, IsTold, Keeps, at_cycle, facts_in, window_in};
ghost use Rattle.cycle_watch.specs.Known.{Watches};
ghost use Rattle.cycle_watch.specs.Passing.{WentBy, idle_between};
ghost use Rattle.cycle_watch.specs.Shown.{shown_in};
ghost use Rattle.cycle_watch.specs.Traced.{AreMarked, HasIntroduced, HasSeen, HasTakenIn};
ghost use Rattle.cycle_watch.specs.Traced.{HasTraceRoom, IsFresh, IsTracing, IsTracingBetween};
ghost use Rattle.cycle_watch.specs.Traced.{MayTell, TracesAt};
ghost use Rattle.cycle_watch.specs.Traced.{appended_text, dest_shown, facts_to, first_lines};
ghost use Rattle.cycle_watch.specs.Traced.{introduced_mark, lines_later, mark_in, marks_in};
ghost use Rattle.cycle_watch.specs.Traced.{older_in, told_to, tracing_later};
ghost use Rattle.cycle_watch.specs.Writing.{IsReady, PutsText, Tells, stand};

use crate::facts::Facts;
use crate::last::LastSight;
use crate::mark::Mark;
use crate::shown::Shown;
use crate::timed_text::TimedText;
use crate::trace_items::{
    Stayed, tell_appended_one, tell_introduction, tell_left_one, tell_squashed_one, tell_stayed_one,
};
use crate::trace_mark::{TraceMark, TraceMarks};
use crate::watched::Watched;
use fsim_base::NoMemory;
use fsim_ports::Sink;
use insight_model::{CycleCause, Pipeline};
use mono_model::Setup;
use report_text::WriteFault;
use std::alloc::Global;

/// The pipeline trace of a run, as its cycles go by: the text that the viewer Konata reads.
#[derive(Drop)]
pub struct Tracing {
    last: LastSight,
    told: TraceMarks,
    text: TimedText,
    /// How many instructions were introduced.
    introduced: u64,
}

/// The youngest instruction that writes a source, by its number in the file, if it gives no value
/// yet.
fn producer(source: Option<u8>, told: &TraceMarks, last: &LastSight) -> Option<u64>
    requires marked { AreMarked (window_in last.now.marks.items) told.now.marks.items }
    ensures producer { result ≡ option_and_then (producer
        (older_in (marks_in told.now.marks.items) (window_in last.now.marks.items))) source }
{
    producer_of(source?, told, last)
}

/// The same of a register.
fn producer_of(register: u8, told: &TraceMarks, last: &LastSight) -> Option<u64>
    requires marked { AreMarked (window_in last.now.marks.items) told.now.marks.items }
    ensures producer { result ≡ producer
        (older_in (marks_in told.now.marks.items) (window_in last.now.marks.items)) register }
{
    let count = told.len();
    for younger in 0..count {
        let place = count - 1 - younger;
        let mark = told.at(place);
        let shown = &last.mark(place).shown;
        if mark.writes_to(register) {
            return if shown.gives_value() {
                None
            } else {
                Some(mark.number)
            };
        }
    }
    None
}

/// Whether the instruction at a place was the last that left, and trapped.
fn has_trapped(facts: &Facts, place: usize) -> bool
    requires left { place < facts.now.left }
    ensures trapped { result ≡ (facts.now.trapped && (facts.now.left == place + 1)) }
{
    facts.trapped && facts.left == place + 1
}

/// Whether the instruction at a place, among those that stayed and were squashed, was mispredicted.
fn is_mispredicted(facts: &Facts, place: usize) -> bool
    ensures wrong { result ≡ is_place place facts.now.mispredicted }
{
    match facts.mispredicted {
        Some(wrong) => wrong == place,
        None => false,
    }
}

/// Whether the instruction at a place was waited for: the first of those that were appended may be.
fn was_paid(facts: &Facts, place: usize) -> bool
    ensures paid { result ≡ (facts.now.paid && (place == facts.now.kept)) }
{
    facts.paid && place == facts.kept
}

/// What flushed.
fn flush_cause(facts: &Facts) -> Option<CycleCause>
    ensures cause { result ≡ option_map (λ flush. flush.cause) facts.now.flush }
{
    match facts.flush {
        Some(flush) => Some(flush.cause),
        None => None,
    }
}

/// Tells of those that left; the last of them may have trapped.
fn tell_left<K: Sink>(
    text: &mut TimedText,
    last: &LastSight,
    told: &TraceMarks,
    facts: &Facts,
    sink: &mut K,
) -> Result<(), WriteFault>
    requires ready { IsReady facts.now.cycle text.old }
    requires left { facts.now.left ≤ length last.now.marks.items }
    requires marked { AreMarked (window_in last.now.marks.items) told.now.marks.items }
    requires small { facts.now.number + length last.now.marks.items < 2 ^ 64 }
    ensures ready { IsReady facts.now.cycle text.new }
    ensures told { Tells facts.now.cycle (left_lines facts.now.trapped facts.now.number
        (take facts.now.left (window_in last.now.marks.items)) (marks_in told.now.marks.items))
        (stand text.old (K.faults sink.old) (K.written sink.old))
        (stand text.new (K.faults sink.new) (K.written sink.new)) result }
{
    for place in 0..facts.left {
        let shown = &last.mark(place).shown;
        let number = told.at(place).number;
        let trapped = has_trapped(facts, place);
        let nth = facts.number + place as u64;
        tell_left_one(text, facts.cycle, nth, number, shown, trapped, sink)?;
    }
    Ok(())
}

/// Tells of those that were squashed, and by what.
fn tell_squashed<S: Watched, K: Sink>(
    text: &mut TimedText,
    last: &LastSight,
    told: &TraceMarks,
    facts: &Facts,
    side: &S,
    sink: &mut K,
) -> Result<(), WriteFault>
    requires ready { IsReady facts.now.cycle text.old }
    requires left { facts.now.left + facts.now.kept ≤ length last.now.marks.items }
    requires all { facts.now.before ≡ length last.now.marks.items }
    requires marked { AreMarked (window_in last.now.marks.items) told.now.marks.items }
    requires small { facts.now.number + length last.now.marks.items < 2 ^ 64 }
    ensures ready { IsReady facts.now.cycle text.new }
    ensures told { Tells facts.now.cycle (squashed_lines
        (facts_in (window_in last.now.marks.items) (S.sight side.now).window facts.now)
        facts.now.kept
        (drop facts.now.kept (drop facts.now.left (window_in last.now.marks.items)))
        (drop facts.now.kept (drop facts.now.left (marks_in told.now.marks.items))))
        (stand text.old (K.faults sink.old) (K.written sink.old))
        (stand text.new (K.faults sink.new) (K.written sink.new)) result }
{
    let flush = flush_cause(facts);
    for place in facts.left + facts.kept..facts.before {
        let shown = &last.mark(place).shown;
        let number = told.at(place).number;
        let is_wrong = is_mispredicted(facts, place - facts.left);
        let nth = facts.number + place as u64;
        tell_squashed_one(text, facts.cycle, nth, number, shown, is_wrong, flush, sink)?;
    }
    Ok(())
}

/// Tells of those that stayed: the access of one that began, its miss, that it was mispredicted,
/// and its cell if that is new.
fn tell_stayed<S: Watched, K: Sink>(
    text: &mut TimedText,
    told: &mut TraceMarks,
    last: &LastSight,
    facts: &Facts,
    side: &S,
    sink: &mut K,
) -> Result<(), WriteFault>
    requires ready { IsReady facts.now.cycle text.old }
    requires kept { facts.now.left + facts.now.kept ≤ length last.now.marks.items }
    requires after { facts.now.kept ≤ length (S.sight side.now).window }
    requires few { facts.now.kept ≤ 256 }
    requires left { facts.now.left ≤ 8 }
    requires marked { length told.old.marks.items ≡ facts.now.kept }
    ensures ready { IsReady facts.now.cycle text.new }
    ensures capacity { told.new.marks.capacity ≡ told.old.marks.capacity }
    ensures told { Tells facts.now.cycle (kept_lines last.now.pipeline last.now.params
        (facts_in (window_in last.now.marks.items) (S.sight side.now).window facts.now) 0
        (pairs (drop facts.now.left (window_in last.now.marks.items))
        (take facts.now.kept (S.sight side.now).window)) (marks_in told.old.marks.items))
        (stand text.old (K.faults sink.old) (K.written sink.old))
        (stand text.new (K.faults sink.new) (K.written sink.new)) result }
    ensures marks { OnOk result (marks_in told.new.marks.items
        ≡ kept_marks last.now.pipeline last.now.params
        (facts_in (window_in last.now.marks.items) (S.sight side.now).window facts.now)
        (pairs (drop facts.now.left (window_in last.now.marks.items))
        (take facts.now.kept (S.sight side.now).window)) (marks_in told.old.marks.items)) }
    ensures writes { OnOk result (map (λ mark. mark.writes) told.new.marks.items
        ≡ map (λ mark. mark.writes) told.old.marks.items) }
{
    for place in 0..facts.kept {
        let before = last.mark(facts.left + place).shown;
        let after = side.shown(place);
        let was = told.at(place);
        let is = was.after(last.pipeline, &last.params, facts.cycle, &before, &after);
        let is_wrong = is_mispredicted(facts, place);
        let stayed = Stayed {
            before,
            after,
            was,
            is,
            is_wrong,
        };
        tell_stayed_one(text, facts.cycle, last.pipeline, &stayed, sink)?;
        told.put(place, is);
    }
    Ok(())
}

impl Tracing {
    /// Before the first cycle of a run. All memory is taken here.
    pub fn new<S: Watched>(
        alloc: Global,
        pipeline: Pipeline,
        setup: &Setup,
        side: &S,
    ) -> Result<Tracing, NoMemory>
        requires start { (S.sight side.now).cycle ≡ 0 }
        requires empty { (S.sight side.now).window ≡ [] }
        ensures fresh { IfOk result IsFresh }
        ensures watches { IfOk result (λ tracing. Watches pipeline setup.now.params tracing.last) }
    {
        Ok(Tracing {
            last: LastSight::new(alloc, pipeline, &setup.params, side)?,
            told: TraceMarks::new(alloc)?,
            text: TimedText::new(alloc)?,
            introduced: 0,
        })
    }

    /// Begins the trace with a cycle since which nothing happened, and introduces the instructions
    /// that are under way.
    pub fn open<S: Watched, K: Sink>(
        &mut self,
        cycle: u64,
        side: &S,
        sink: &mut K,
    ) -> Result<(), WriteFault>
        requires fresh { IsFresh self.old }
        requires within { length (S.sight side.now).window ≤ 256 }
        requires small { departed (S.sight side.now) < 2 ^ 63 }
        ensures written { PutsText (joined (first_lines self.old.last.pipeline
            self.old.last.params (at_cycle cycle (S.sight side.now))))
            (stand self.old.text (K.faults sink.old) (K.written sink.old))
            (stand self.new.text (K.faults sink.new) (K.written sink.new)) result }
        ensures stands { OnOk result (TracesAt self.old.last.pipeline self.old.last.params
            (at_cycle cycle (S.sight side.now))
            (opened self.old.last.pipeline self.old.last.params (cycle - 1)
            (S.sight side.now).window) self.new) }
    {
        self.last.look(side);
        self.last.cycle = cycle;
        let before = cycle.saturating_sub(1);
        self.text.begin(before, sink)?;
        self.introduce_all(before, sink)
    }

    /// Introduces the instructions that are under way.
    fn introduce_all<K: Sink>(&mut self, cycle: u64, sink: &mut K) -> Result<(), WriteFault>
        requires ready { IsReady cycle self.old.text }
        requires none { self.old.told.marks.items ≡ [] }
        requires room { self.old.told.marks.capacity ≡ 256 }
        requires introduced { self.old.introduced ≡ 0 }
        requires seen { HasSeen self.old.last }
        ensures ready { IsReady cycle self.new.text }
        ensures last { self.new.last ≡ self.old.last }
        ensures told { (s : Sight) → Keeps s self.old.last → Tells cycle
            (opening_lines self.old.last.pipeline self.old.last.params cycle 0 (departed s)
            s.window)
            (stand self.old.text (K.faults sink.old) (K.written sink.old))
            (stand self.new.text (K.faults sink.new) (K.written sink.new)) result }
        ensures introduced { OnOk result (HasIntroduced self.old cycle
            (window_in self.old.last.marks.items) self.new) }
    {
        let number = self.last.number();
        for place in 0..self.last.marks.len() {
            let shown = self.last.mark(place).shown;
            let mark = self.introduced_now(cycle, &shown);
            let nth = number + place as u64;
            tell_introduction(&mut self.text, cycle, nth, &mark, &shown, sink)?;
            self.told.append(mark);
            self.introduced += 1;
        }
        Ok(())
    }

    /// Traces the cycles up to this one that went by since the last look.
    pub fn look<S: Watched, K: Sink>(
        &mut self,
        to: u64,
        side: &S,
        sink: &mut K,
    ) -> Result<(), WriteFault>
        requires standing { IsTracing self.old (S.sight side.now) }
        ensures written { (kind : WhichPipeline) (p : WhichParams) (before : Sight)
            (t : TracingSeen) (more : ℕ) → TracesAt kind p before t self.old
            → WentBy kind more before (S.sight side.now)
            → PutsText (joined (lines_later kind p (facts_to to before (S.sight side.now)) t))
            (stand self.old.text (K.faults sink.old) (K.written sink.old))
            (stand self.new.text (K.faults sink.new) (K.written sink.new)) result }
        ensures stands { (kind : WhichPipeline) (p : WhichParams) (before : Sight)
            (t : TracingSeen) (more : ℕ) → TracesAt kind p before t self.old
            → WentBy kind more before (S.sight side.now) → OnOk result (TracesAt kind p
            (at_cycle (told_to (before.cycle + 1) to (S.sight side.now).cycle) (S.sight side.now))
            (tracing_later kind p (facts_to to before (S.sight side.now)) t) self.new) }
    {
        let facts = self.last.facts(side);
        self.tell_cycle(&facts, side, sink)?;
        self.pass_idle(to, side, sink)
    }

    /// Traces cycles in which nothing happened, up to this one.
    pub fn pass_idle<S: Watched, K: Sink>(
        &mut self,
        to: u64,
        side: &S,
        sink: &mut K,
    ) -> Result<(), WriteFault>
        requires standing { self.old.last.cycle < (S.sight side.now).cycle
            → IsTracingBetween self.old (S.sight side.now) }
        ensures written { (kind : WhichPipeline) (p : WhichParams) (t : TracingSeen)
            → TracesAt kind p (at_cycle self.old.last.cycle (S.sight side.now)) t self.old
            → PutsText (joined (lines_later kind p (idle_between self.old.last.cycle
            (told_to self.old.last.cycle to (S.sight side.now).cycle) (S.sight side.now)) t))
            (stand self.old.text (K.faults sink.old) (K.written sink.old))
            (stand self.new.text (K.faults sink.new) (K.written sink.new)) result }
        ensures stands { (kind : WhichPipeline) (p : WhichParams) (t : TracingSeen)
            → TracesAt kind p (at_cycle self.old.last.cycle (S.sight side.now)) t self.old
            → OnOk result (TracesAt kind p
            (at_cycle (told_to self.old.last.cycle to (S.sight side.now).cycle)
            (S.sight side.now))
            (tracing_later kind p (idle_between self.old.last.cycle
            (told_to self.old.last.cycle to (S.sight side.now).cycle) (S.sight side.now)) t)
            self.new) }
    {
        let until = to.min(side.cycle());
        while self.last.cycle < until {
            let facts = self.last.idle_facts();
            self.tell_cycle(&facts, side, sink)?;
        }
        Ok(())
    }

    /// Writes the lines of a cycle, and passes it.
    fn tell_cycle<S: Watched, K: Sink>(
        &mut self,
        facts: &Facts,
        side: &S,
        sink: &mut K,
    ) -> Result<(), WriteFault>
        requires may { MayTell self.old (S.sight side.now) facts.now }
        requires few { facts.now.before ≤ 256 }
        ensures told { (kind : WhichPipeline) (p : WhichParams) (before : Sight)
            (t : TracingSeen) → TracesAt kind p before t self.old
            → Follows before (S.sight side.now) → IsTold before (S.sight side.now) facts.now
            → Tells before.cycle (lines_in kind p (cycle_facts before (S.sight side.now)) t)
            (stand self.old.text (K.faults sink.old) (K.written sink.old))
            (stand self.new.text (K.faults sink.new) (K.written sink.new)) result }
        ensures stands { (kind : WhichPipeline) (p : WhichParams) (before : Sight)
            (t : TracingSeen) → TracesAt kind p before t self.old
            → Follows before (S.sight side.now) → IsTold before (S.sight side.now) facts.now
            → OnOk result (TracesAt kind p (at_cycle (before.cycle + 1) (S.sight side.now))
            (tracing_after kind p (cycle_facts before (S.sight side.now))
            (lines_in kind p (cycle_facts before (S.sight side.now)) t) t) self.new) }
    {
        tell_left(&mut self.text, &self.last, &self.told, facts, sink)?;
        tell_squashed(&mut self.text, &self.last, &self.told, facts, side, sink)?;
        self.told.keep(facts.left, facts.kept);
        tell_stayed(
            &mut self.text,
            &mut self.told,
            &self.last,
            facts,
            side,
            sink,
        )?;
        self.last.pass(facts, side);
        self.tell_appended(facts, side, sink)
    }

    /// Tells of those that were appended: they are introduced, with the note of a miss that was
    /// waited for, and with arrows from those that they wait for.
    fn tell_appended<S: Watched, K: Sink>(
        &mut self,
        facts: &Facts,
        side: &S,
        sink: &mut K,
    ) -> Result<(), WriteFault>
        requires ready { IsReady facts.now.cycle self.old.text }
        requires marked { AreMarked (window_in self.old.last.marks.items)
            self.old.told.marks.items }
        requires room { HasTraceRoom self.old }
        requires introduced { self.old.introduced < 2 ^ 60 }
        requires stayed { length self.old.last.marks.items ≡ facts.now.kept }
        requires within { length (S.sight side.now).window ≤ 256 }
        requires small { facts.now.number + facts.now.left < 2 ^ 63 + 2 ^ 60 }
        ensures ready { IsReady facts.now.cycle self.new.text }
        ensures told { Tells facts.now.cycle (appended_lines self.old.last.pipeline
            self.old.last.params facts.now.cycle facts.now.paid self.old.introduced
            (facts.now.number + facts.now.left + facts.now.kept)
            (older_in (marks_in self.old.told.marks.items)
            (window_in self.old.last.marks.items))
            (drop facts.now.kept (S.sight side.now).window))
            (stand self.old.text (K.faults sink.old) (K.written sink.old))
            (stand self.new.text (K.faults sink.new) (K.written sink.new)) result }
        ensures introduced { OnOk result (HasTakenIn self.old facts.now.cycle
            (drop facts.now.kept (S.sight side.now).window) self.new) }
    {
        for place in facts.kept..side.len() {
            let shown = side.shown(place);
            let nth = facts.number + facts.left as u64 + place as u64;
            self.append_one(facts.cycle, nth, was_paid(facts, place), shown, sink)?;
        }
        Ok(())
    }

    /// Tells of an instruction that was appended, and takes it in.
    fn append_one<K: Sink>(
        &mut self,
        cycle: u64,
        place: u64,
        paid: bool,
        shown: Shown,
        sink: &mut K,
    ) -> Result<(), WriteFault>
        requires ready { IsReady cycle self.old.text }
        requires marked { AreMarked (window_in self.old.last.marks.items)
            self.old.told.marks.items }
        requires room { HasTraceRoom self.old }
        requires introduced { self.old.introduced < 2 ^ 61 }
        requires few { length self.old.last.marks.items < 256 }
        ensures ready { IsReady cycle self.new.text }
        ensures told { Tells cycle (appended_text self.old.last.pipeline self.old.last.params cycle
            paid self.old.introduced place (older_in (marks_in self.old.told.marks.items)
            (window_in self.old.last.marks.items)) (shown_in shown))
            (stand self.old.text (K.faults sink.old) (K.written sink.old))
            (stand self.new.text (K.faults sink.new) (K.written sink.new)) result }
        ensures taken { HasTakenIn self.old cycle (shown_in shown ∷ []) self.new }
    {
        let (first, second) = shown.sources();
        let producers = (
            producer(first, &self.told, &self.last),
            producer(second, &self.told, &self.last),
        );
        let mark = self.introduced_now(cycle, &shown);
        self.take_in(mark, shown);
        tell_appended_one(
            &mut self.text,
            cycle,
            place,
            &mark,
            &shown,
            paid,
            producers,
            sink,
        )
    }

    /// Takes in an instruction that was appended.
    fn take_in(&mut self, mark: TraceMark, shown: Shown)
        requires room { HasTraceRoom self.old }
        requires introduced { self.old.introduced < 2 ^ 61 }
        requires few { length self.old.last.marks.items < 256 }
        requires told { length self.old.told.marks.items < 256 }
        ensures told { self.new.told.marks.items ≡ self.old.told.marks.items ++ mark ∷ [] }
        ensures capacity { self.new.told.marks.capacity ≡ self.old.told.marks.capacity }
        ensures introduced { self.new.introduced ≡ self.old.introduced + 1 }
        ensures text { self.new.text ≡ self.old.text }
        ensures window { window_in self.new.last.marks.items
            ≡ window_in self.old.last.marks.items ++ shown_in shown ∷ [] }
        ensures last { self.new.last ≡ record self.old.last {
          marks = record self.old.last.marks { items = self.new.last.marks.items };
        } }
    {
        self.told.append(mark);
        self.last.append(Mark::new(shown));
        self.introduced += 1;
    }

    /// The mark of an instruction that is introduced in a cycle.
    fn introduced_now(&self, cycle: u64, shown: &Shown) -> TraceMark
        ensures mark { mark_in result ≡ introduced_mark self.now.last.pipeline self.now.last.params
            cycle self.now.introduced (shown_in shown.now) }
        ensures writes { result.writes ≡ dest_shown (shown_in shown.now) }
    {
        let last = &self.last;
        TraceMark::new(last.pipeline, &last.params, cycle, self.introduced, shown)
    }

    /// The cycle that is traced next.
    pub fn cycle(&self) -> u64
        ensures cycle { result ≡ self.now.last.cycle }
    {
        self.last.cycle
    }

    /// Ends the trace with the time of its end, and writes all that is left of it.
    pub fn close<K: Sink>(&mut self, end: u64, sink: &mut K) -> Result<(), WriteFault>
        requires ready { IsReady end self.old.text }
        ensures count { K.faults sink.old ≤ K.faults sink.new }
        ensures written { Puts (self.old.text.buffer.bytes.items
            ++ joined (time_lines self.old.text.at end)) (K.faults sink.old) (K.faults sink.new)
            (K.written sink.old) (K.written sink.new) result }
    {
        self.text.tell_time(end, sink)?;
        self.text.flush(sink)
    }
}
