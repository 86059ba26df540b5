ghost use Rattle.std.specs.Prelude.{◌≡◌, ◌+◌, ◌-◌, ◌<◌, ◌≤◌, ◌^◌, ℕ, [], IfOk, Some, false, length};
ghost use Rattle.std.specs.Prelude.{◌==◌, if◌then◌else◌, drop, min, option_map, slice_get, take};
ghost use Rattle.std.specs.Prelude.{None, filter_map, map, unwrap_or};
ghost use Rattle.std.specs.List.{last_or};
ghost use Rattle.std.specs.Option.{option_map_or};
ghost use Rattle.mono_model.specs.declared.params.Params.{Params};
ghost use Rattle.insight_model.specs.declared.pipeline.Pipeline.{Pipeline as WhichPipeline};
ghost use Rattle.insight_model.specs.Sight.{Shown as ShownSeen, Sight};
ghost use Rattle.insight_model.specs.Facts.{Facts as FactsSeen, facts as cycle_facts, or_else};
ghost use Rattle.insight_model.specs.Facts.{has_stopped as stops};
ghost use Rattle.insight_model.specs.Facts.{window_after};
ghost use Rattle.insight_model.specs.Accesses.{load_access};
ghost use Rattle.insight_model.specs.Fetch.{fetch_end as end_of_fetch, fetch_width, is_full};
ghost use Rattle.insight_model.specs.Fetch.{is_predicted_elsewhere};
ghost use Rattle.insight_model.specs.declared.pipeline.Pipeline.TheVariants.{Inorder};
ghost use Rattle.insight_model.specs.Hole.{holes_after};
ghost use Rattle.insight_model.specs.Origin.{first_origin, newest, refill_after, room_origin};
ghost use Rattle.cycle_watch.specs.Stages.{HasKept};
ghost use Rattle.insight_model.specs.Head.{Known, head as head_of, inorder_head, is_missing_at};
ghost use Rattle.insight_model.specs.Head.{is_young, window_head};
ghost use Rattle.insight_model.specs.Cycles.{known_after, known_start};
ghost use Rattle.cycle_watch.specs.Shown.{shown_in};
ghost use Rattle.cycle_watch.specs.Facts.{Follows, IsTold, Keeps, at_cycle, charge_in, idle};
ghost use Rattle.cycle_watch.specs.Facts.{access_in, window_in};
ghost use Rattle.cycle_watch.specs.Known.{HasAppended, MayPass, StandsAt, TellsOrigin, holes_in, misses_in};
ghost use Rattle.cycle_watch.specs.Known.{oldest_head_by, origin_of, undone_head_by, unit_cause_by};
ghost use Rattle.insight_model.specs.declared.cycle_cause.CycleCause.TheVariants.{Icache, Start};
ghost use Rattle.cycle_watch.specs.Passing.{HasNoTurn, IsApart};
ghost use Rattle.cycle_watch.specs.declared.mark.Mark.{Mark};
ghost use Rattle.cycle_watch.specs.declared.shown.Progress.TheVariants.{Executing};

use crate::charge::{Charge, class_cause};
use crate::facts::Facts;
use crate::holes::Holes;
use crate::last::{LastSight, latest};
use crate::mark::Mark;
use crate::shown::{Progress, Shown};
use crate::watched::Watched;
use fsim_base::{NoMemory, wrap_add};
use insight_model::{CycleCause, FetchEnd, Pipeline};
use mono_model::Setup;
use std::alloc::Global;

/// What each cycle is charged to, as the cycles of a run go by.
#[derive(Drop)]
pub(crate) struct Heads {
    pub last: LastSight,
    /// The newest flush, if nothing was appended after it yet.
    refill: Option<Charge>,
    holes: Holes,
}

/// Whether the oldest instruction would be done by now, had it hit.
fn is_missing(cycle: u64, mark: &Mark) -> bool
    ensures missing { result
        ≡ is_missing_at cycle mark.now.miss (shown_in mark.now.shown).progress }
{
    match mark.shown.progress {
        Progress::Executing(end) => end.saturating_sub(mark.miss) < cycle,
        _ => false,
    }
}

/// What a cycle is charged to in which the window is empty.
fn empty_cause(cycle: u64) -> CycleCause
    ensures cause { result ≡ (if cycle == 0 then Start else Icache) }
{
    if cycle == 0 {
        CycleCause::Start
    } else {
        CycleCause::Icache
    }
}

/// The newest flush, up to and including a cycle.
fn newest(facts: &Facts, refill: Option<Charge>) -> Option<Charge>
    ensures newest { option_map charge_in result
        ≡ or_else (option_map charge_in facts.now.flush) (option_map charge_in refill) }
{
    match facts.flush {
        Some(flush) => Some(flush),
        None => refill,
    }
}

impl Heads {
    /// Before the first cycle of a run. All memory is taken here.
    pub(crate) fn new<S: Watched>(
        alloc: Global,
        pipeline: Pipeline,
        setup: &Setup,
        side: &S,
    ) -> Result<Heads, NoMemory>
        requires start { (S.sight side.now).cycle ≡ 0 }
        requires empty { (S.sight side.now).window ≡ [] }
        ensures stands { IfOk result (StandsAt pipeline setup.now.params (S.sight side.now)
            (known_start setup.now.image.entry)) }
    {
        let last = LastSight::new(alloc, pipeline, &setup.params, side)?;
        Ok(Heads {
            last,
            refill: None,
            holes: Holes::start(setup.image.entry),
        })
    }

    /// Whether an instruction is so young that it can't be done yet, however fast it is.
    fn is_young(&self, cycle: u64, oldest: &Shown) -> bool
        ensures young { result ≡ is_young self.now.last.params cycle (shown_in oldest.now) }
    {
        oldest.is_within(cycle, self.front())
    }

    /// How many cycles after its fetch an instruction can be done at the earliest.
    fn front(&self) -> u64
        ensures front { result ≡ self.now.last.params.core_front + 2 }
    {
        u64::from(self.last.params.core_front) + 2
    }

    /// What the oldest instruction waits for in its unit, as it is seen at the latest.
    fn unit_cause(&self, cycle: u64, mark: &Mark, seen: &Shown) -> CycleCause
        ensures cause { result ≡ unit_cause_by cycle mark.now.miss (shown_in mark.now.shown)
            (shown_in seen.now) }
    {
        if is_missing(cycle, mark) {
            CycleCause::Dcache
        } else {
            class_cause(mark.shown.class(), seen.is_device_load())
        }
    }

    /// What a cycle is charged to whose oldest instruction isn't done.
    fn undone_head(&self, cycle: u64, mark: &Mark, seen: &Shown) -> Charge
        ensures head { charge_in result ≡ undone_head_by self.now.last.params cycle mark.now
            (shown_in seen.now) }
    {
        if self.is_young(cycle, &mark.shown) {
            mark.origin
        } else {
            Charge::new(self.unit_cause(cycle, mark, seen), mark.shown.addr)
        }
    }

    /// What a cycle is charged to in the window.
    #[tactic(auto, using(crate::proofs::Heading::undone_is, crate::proofs::Heading::told_latest))]
    fn window_head<S: Watched>(&self, facts: &Facts, side: &S) -> Charge
        requires kept { facts.now.kept ≤ length (S.sight side.now).window }
        ensures head { (kind : WhichPipeline) (p : Params) (before : Sight) (known : Known)
            → StandsAt kind p before known self.now → Follows before (S.sight side.now)
            → IsTold before (S.sight side.now) facts.now
            → charge_in result
            ≡ window_head p (cycle_facts before (S.sight side.now)) known before.window }
    {
        match self.last.oldest() {
            Some(mark) => self.oldest_head(facts, side, mark),
            None => Charge::new(empty_cause(facts.cycle), facts.fetch_at),
        }
    }

    /// What a cycle is charged to in the window, by its oldest instruction.
    fn oldest_head<S: Watched>(&self, facts: &Facts, side: &S, mark: &Mark) -> Charge
        requires kept { facts.now.kept ≤ length (S.sight side.now).window }
        ensures head { charge_in result ≡ oldest_head_by self.now.last.params facts.now mark.now
            (unwrap_or (slice_get (take facts.now.kept (S.sight side.now).window) 0)
            (shown_in mark.now.shown)) }
    {
        if mark.shown.is_done() {
            return Charge::new(CycleCause::Commit, mark.shown.addr);
        }
        if facts.replayed {
            return Charge::new(CycleCause::Replay, mark.shown.addr);
        }
        let seen = latest(facts, side, &mark.shown);
        self.undone_head(facts.cycle, mark, &seen)
    }

    /// What a cycle is charged to in order.
    fn inorder_head(&self) -> Charge
        ensures head { (known : Known) → holes_in self.now.holes ≡ known.holes
            → charge_in result ≡ inorder_head known (window_in self.now.last.marks.items) }
    {
        match self.last.oldest() {
            Some(mark) => {
                if mark.shown.is_done() {
                    Charge::new(CycleCause::Commit, mark.shown.addr)
                } else {
                    self.holes.write
                }
            }
            None => self.holes.write,
        }
    }

    /// The head of a cycle: what it is charged to.
    pub(crate) fn head<S: Watched>(&self, facts: &Facts, side: &S) -> Charge
        requires kept { facts.now.kept ≤ length (S.sight side.now).window }
        ensures head { (kind : WhichPipeline) (p : Params) (before : Sight) (known : Known)
            → StandsAt kind p before known self.now → Follows before (S.sight side.now)
            → IsTold before (S.sight side.now) facts.now
            → charge_in result
            ≡ head_of kind p (cycle_facts before (S.sight side.now)) known }
    {
        if facts.interrupted {
            return Charge::new(CycleCause::Interrupt, facts.fetch_at);
        }
        match self.last.pipeline {
            Pipeline::Window => self.window_head(facts, side),
            Pipeline::Inorder => self.inorder_head(),
        }
    }

    /// Why fetch ended in a cycle.
    pub(crate) fn fetch_end<S: Watched>(&self, facts: &Facts, side: &S) -> FetchEnd
        requires appended { facts.now.appended ≤ length (S.sight side.now).window }
        ensures end { (kind : WhichPipeline) (p : Params) (before : Sight) (known : Known)
            → StandsAt kind p before known self.now → Follows before (S.sight side.now)
            → IsTold before (S.sight side.now) facts.now
            → result ≡ end_of_fetch kind p (cycle_facts before (S.sight side.now)) }
    {
        if facts.stopped {
            return FetchEnd::Ended;
        }
        if facts.has_waited() {
            return FetchEnd::Icache;
        }
        if self.is_wide(facts) {
            return FetchEnd::Width;
        }
        if is_last_elsewhere(facts, side) {
            return FetchEnd::Taken;
        }
        if self.is_full(side) {
            FetchEnd::Window
        } else {
            FetchEnd::Stations
        }
    }

    /// Whether as many were appended as are fetched in a cycle at most.
    fn is_wide(&self, facts: &Facts) -> bool
        ensures wide { result ≡ (facts.now.appended
            == fetch_width self.now.last.pipeline self.now.last.params) }
    {
        facts.appended == self.fetch_width()
    }

    /// How many are fetched in a cycle at most.
    fn fetch_width(&self) -> usize
        ensures width { result ≡ fetch_width self.now.last.pipeline self.now.last.params }
    {
        match self.last.pipeline {
            Pipeline::Window => self.last.params.core_fetch as usize,
            Pipeline::Inorder => 1,
        }
    }

    /// Whether there is no room for more after a cycle; in order, Decode has room for one.
    fn is_full<S: Watched>(&self, side: &S) -> bool
        ensures full { (f : FactsSeen) → window_after f ≡ (S.sight side.now).window
            → result ≡ is_full self.now.last.pipeline self.now.last.params f }
    {
        match self.last.pipeline {
            Pipeline::Window => side.len() == self.last.params.core_window as usize,
            Pipeline::Inorder => true,
        }
    }

    /// The origin of an instruction for which there was no room before.
    fn room_origin(&self, facts: &Facts, addr: u32) -> Charge
        ensures origin { (f : FactsSeen) (shown : ShownSeen) → TellsOrigin facts.now f
            → addr ≡ shown.addr → charge_in result ≡ room_origin self.now.last.params f shown }
    {
        let cause = if facts.before == self.last.params.core_window as usize {
            CycleCause::Window
        } else {
            CycleCause::Stations
        };
        Charge::new(cause, addr)
    }

    /// The origin of the first instruction that was appended in a cycle.
    fn first_origin(&self, facts: &Facts, addr: u32) -> Charge
        ensures origin { (f : FactsSeen) (shown : ShownSeen) → TellsOrigin facts.now f
            → addr ≡ shown.addr → charge_in result ≡ first_origin self.now.last.params f
            (newest f (option_map charge_in self.now.refill)) shown }
    {
        if let Some(flush) = newest(facts, self.refill) {
            return flush;
        }
        if facts.fetched == 0 {
            return Charge::new(CycleCause::Start, addr);
        }
        if facts.paid {
            return Charge::new(CycleCause::Icache, addr);
        }
        self.room_origin(facts, addr)
    }

    /// The origin of the instruction at a place, which was appended in a cycle.
    fn origin_at(&self, facts: &Facts, place: usize, addr: u32) -> Charge
        requires appended { facts.now.kept ≤ place }
        ensures origin { (f : FactsSeen) (shown : ShownSeen) → TellsOrigin facts.now f
            → addr ≡ shown.addr → charge_in result ≡ origin_of self.now.last.params f
            (newest f (option_map charge_in self.now.refill)) (place - facts.now.kept) shown }
    {
        if place == facts.kept {
            self.first_origin(facts, addr)
        } else {
            self.room_origin(facts, addr)
        }
    }

    /// Adds those that were appended in a cycle.
    #[tactic(auto, using(crate::proofs::Appending::appended_next))]
    fn append<S: Watched>(&mut self, facts: &Facts, side: &S)
        requires kept { facts.now.kept ≤ length (S.sight side.now).window }
        requires all { length self.old.last.marks.items ≡ facts.now.kept }
        requires room { length (S.sight side.now).window ≤ self.old.last.marks.capacity }
        ensures appended { (f : FactsSeen) → TellsOrigin facts.now f → HasAppended self.old f
            (drop facts.now.kept (S.sight side.now).window) self.new }
    {
        for place in facts.kept..side.len() {
            let mut mark = Mark::new(side.shown(place));
            mark.origin = self.origin_at(facts, place, mark.shown.addr);
            self.last.append(mark);
        }
    }

    /// Passes a cycle.
    pub(crate) fn pass<S: Watched>(&mut self, facts: &Facts, side: &S)
        requires standing { MayPass self.old (S.sight side.now) facts.now }
        ensures stands { (kind : WhichPipeline) (p : Params) (before : Sight) (known : Known)
            → StandsAt kind p before known self.old → Follows before (S.sight side.now)
            → IsTold before (S.sight side.now) facts.now
            → StandsAt kind p (at_cycle (before.cycle + 1) (S.sight side.now))
            (known_after kind p (cycle_facts before (S.sight side.now)) known) self.new }
        ensures loads { (before : Sight) → Keeps before self.old.last
            → Follows before (S.sight side.now) → IsTold before (S.sight side.now) facts.now
            → map access_in self.new.last.loads.items
            ≡ filter_map (load_access self.old.last.pipeline)
            (cycle_facts before (S.sight side.now)).kept }
    {
        let holes = self.holes_after(facts, side);
        let refill = self.refill_after(facts);
        self.last.pass(facts, side);
        self.append(facts, side);
        self.holes = holes;
        self.refill = refill;
    }

    /// The holes after a cycle, which are known in order alone.
    fn holes_after<S: Watched>(&self, facts: &Facts, side: &S) -> Holes
        requires kept { HasKept self.now.last facts.now (S.sight side.now).window }
        ensures holes { (before : Sight) → Keeps before self.now.last
            → IsTold before (S.sight side.now) facts.now → self.now.last.pipeline ≡ Inorder
            → holes_in result ≡ holes_after (cycle_facts before (S.sight side.now))
            (misses_in self.now.last.marks.items) (holes_in self.now.holes) }
    {
        match self.last.pipeline {
            Pipeline::Window => self.holes,
            Pipeline::Inorder => self.holes.after(&self.last, facts, side),
        }
    }

    /// The newest flush after a cycle, if nothing was appended after it yet.
    #[tactic(auto, unfolding(insight_model::specs::Origin::refill_after))]
    fn refill_after(&self, facts: &Facts) -> Option<Charge>
        ensures refill { (f : FactsSeen) → option_map charge_in facts.now.flush ≡ f.flush
            → facts.now.appended ≡ length f.appended → option_map charge_in result
            ≡ refill_after f (option_map charge_in self.now.refill) }
    {
        if facts.appended == 0 {
            newest(facts, self.refill)
        } else {
            None
        }
    }

    /// Passes cycles in which nothing happens, and stands in the last of those that are alike: in
    /// each the run is charged to the same, and fetch ends for the same reason. How many these are.
    pub(crate) fn pass_alike(&mut self, to: u64) -> u64
        requires before { self.old.last.cycle < to }
        ensures some { 0 < result }
        ensures within { self.old.last.cycle + result ≤ to }
        ensures passed { self.new ≡ record self.old {
          last = record self.old.last {
            cycle = self.old.last.cycle + result;
          };
        } }
        ensures turns { HasNoTurn self.old.last (self.old.last.cycle + result) }
    {
        let from = self.last.cycle;
        let end = until(from, self.last.resume(), to);
        let end = until(from, self.young_until(), end);
        let end = until(from, self.missing_from(), end);
        self.last.cycle = end;
        end - from
    }

    /// Until when the oldest instruction is young.
    fn young_until(&self) -> u64
        ensures young { (mark : Mark) → slice_get self.now.last.marks.items 0 ≡ Some mark
            → result ≡ min (mark.shown.since + (self.now.last.params.core_front + 2)) (2 ^ 64 - 1) }
    {
        match self.last.oldest() {
            Some(mark) => { mark.shown.since.saturating_add(self.front()) }
            None => 0,
        }
    }

    /// From when on the oldest instruction waits for its miss.
    fn missing_from(&self) -> u64
        ensures missing { (mark : Mark) (end : ℕ) → slice_get self.now.last.marks.items 0 ≡ Some mark
            → mark.shown.progress ≡ Executing end
            → result ≡ min (end - mark.miss + 1) (2 ^ 64 - 1) }
    {
        match self.last.oldest() {
            Some(mark) => match mark.shown.progress {
                Progress::Executing(end) => end.saturating_sub(mark.miss).saturating_add(1),
                _ => 0,
            },
            None => 0,
        }
    }
}

/// The end of a stretch of cycles that goes no further than a turn.
fn until(from: u64, turn: u64, end: u64) -> u64
    requires some { from < end }
    ensures some { from < result }
    ensures within { result ≤ end }
    ensures apart { IsApart from turn result }
{
    if from < turn && turn < end { turn } else { end }
}

/// Whether the last instruction that was appended isn't predicted to be followed by the next word.
fn is_last_elsewhere<S: Watched>(facts: &Facts, side: &S) -> bool
    requires appended { facts.now.appended ≤ length (S.sight side.now).window }
    ensures elsewhere { result ≡ option_map_or is_predicted_elsewhere (last_or None
        (drop (length (S.sight side.now).window - facts.now.appended) (S.sight side.now).window))
        false }
{
    facts.appended > 0 && is_predicted_elsewhere(&side.shown(side.len() - 1))
}

/// Whether an instruction isn't predicted to be followed by the next word.
fn is_predicted_elsewhere(shown: &Shown) -> bool
    ensures elsewhere { result ≡ is_predicted_elsewhere (shown_in shown.now) }
{
    shown.predicted != wrap_add(shown.addr, 4)
}
