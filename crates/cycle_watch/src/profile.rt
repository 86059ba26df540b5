ghost use Rattle.std.specs.Prelude.{◌≡◌, ◌≤◌, ◌<◌, ◌^◌, ◌+◌, ◌++◌, ◌∷◌, ℕ, [], true, IfOk, List, drop};
ghost use Rattle.std.specs.Prelude.{filter_map, flat_map, length, map, option_map, option_to_list};
ghost use Rattle.std.specs.Prelude.{◌-◌, if◌then◌else◌, min};
ghost use Rattle.elf_image.specs.declared.image.Image.{Image};
ghost use Rattle.fsim_ports.specs.Sink.{Puts};
ghost use Rattle.mono_model.specs.declared.params.Params.{Params};
ghost use Rattle.mono_model.specs.declared.setup.Setup.{Setup as RunSetup};
ghost use Rattle.mono_model.specs.Report.{joined};
ghost use Rattle.mono_model.specs.Setup.{caches_params, is_setup};
ghost use Rattle.insight_model.specs.declared.pipeline.Pipeline.{Pipeline as WhichPipeline};
ghost use Rattle.insight_model.specs.declared.pipeline.Pipeline.TheVariants.{Window};
ghost use Rattle.insight_model.specs.Sight.{Shown as ShownSeen, Sight};
ghost use Rattle.insight_model.specs.Accesses.{fetch_access, fetch_at_address, fetches, loads, rise};
ghost use Rattle.insight_model.specs.Accesses.{store_access, stores};
ghost use Rattle.insight_model.specs.Head.{Known};
ghost use Rattle.insight_model.specs.Facts.{facts as cycle_facts};
ghost use Rattle.insight_model.specs.Cycles.{Cycle, cycles_from, known_after, known_start};
ghost use Rattle.insight_model.specs.Profile.{Event, cache_events, events, events_at, fetched};
ghost use Rattle.insight_model.specs.Profile.{mispredicted, once, profile_lines, profile_of};
ghost use Rattle.insight_model.specs.Profile.{retired_events, row_of, squashed, trapped};
ghost use Rattle.cycle_watch.specs.Shown.{shown_in};
ghost use Rattle.cycle_watch.specs.Facts.{Follows, IsTold, access_in, at_cycle, idle, window_in};
ghost use Rattle.cycle_watch.specs.Known.{MayPass, StandsAt};
ghost use Rattle.cycle_watch.specs.Passing.{StandsBetween, WentBy, facts_since, idle_between};
ghost use Rattle.cycle_watch.specs.Passing.{known_later};
ghost use Rattle.cycle_watch.specs.Profiled.{HasCounted, IsProfileOf, IsProfiling, Makes, Passes};
ghost use Rattle.cycle_watch.specs.Profiled.{column_in};
ghost use Rattle.cycle_watch.specs.Profiled.{cycles_of, events_before, fetched_after, retired_before};
ghost use Rattle.cycle_watch.specs.Profiled.{row_text, spent_event, trapped_before, wrong_before};

use crate::charge::{Charge, cause_place};
use crate::facts::Facts;
use crate::heads::Heads;
use crate::profile_row::{Column, ProfileRow};
use crate::shown::Shown;
use crate::watched::Watched;
use cache_timing::{CacheCounts, Caches};
use fsim_base::NoMemory;
use fsim_ports::Sink;
use insight_model::Pipeline;
use mono_model::Setup;
use report_text::{WriteFault, number_row, profile_header};
use std::alloc::Global;
use text_rows::TextRows;
use timing_core::caches_params;

/// What each address of a program cost, as the cycles of its run go by.
#[derive(Drop)]
pub struct Profiling {
    heads: Heads,
    /// Caches of its own, which make the accesses of the run once more.
    caches: Caches,
    rows: TextRows,
    /// What was counted in each row.
    counts: Vec<ProfileRow>,
}

/// The place of the first one appended that wasn't waited for.
fn first_fetched(facts: &Facts) -> usize
    ensures first { result
        ≡ min (facts.now.kept + (if facts.now.paid then 1 else 0)) (2 ^ 64 - 1) }
{
    let kept = facts.kept;
    if facts.paid {
        kept.saturating_add(1)
    } else {
        kept
    }
}

impl Profiling {
    /// Before the first cycle of a run. All memory is taken here.
    pub fn new<S: Watched>(
        alloc: Global,
        pipeline: Pipeline,
        setup: &Setup,
        side: &S,
    ) -> Result<Profiling, NoMemory>
        requires sound { is_setup setup.now ≡ true }
        requires start { (S.sight side.now).cycle ≡ 0 }
        requires empty { (S.sight side.now).window ≡ [] }
        ensures stands { IfOk result (λ profiling. StandsAt pipeline setup.now.params
            (S.sight side.now) (known_start setup.now.image.entry) profiling.heads) }
        ensures profiled { IfOk result (IsProfileOf setup.now.image
            (caches_params setup.now.params) pipeline []) }
    {
        let heads = Heads::new(alloc, pipeline, setup, side)?;
        let caches = Caches::new(alloc, &caches_params(&setup.params))?;
        let rows = TextRows::new(alloc, setup)?;
        match vec![in alloc; ProfileRow::new(); rows.len() + 1] {
            Ok(counts) => Ok(Profiling {
                heads,
                caches,
                rows,
                counts,
            }),
            Err(_) => Err(NoMemory),
        }
    }

    /// Looks at the start of the next cycle, or a later one where nothing happened in those before
    /// it.
    pub fn look<S: Watched>(&mut self, side: &S)
        requires standing { IsProfiling self.old (S.sight side.now) }
        ensures stands { (kind : WhichPipeline) (p : Params) (before : Sight) (known : Known)
            (more : ℕ) → StandsAt kind p before known self.old.heads
            → WentBy kind more before (S.sight side.now)
            → StandsAt kind p (S.sight side.now)
            (known_later kind p known (facts_since more before (S.sight side.now)))
            self.new.heads }
        ensures profiled { (image : Image) (kind : WhichPipeline) (p : Params) (before : Sight)
            (known : Known) (more : ℕ) (run : List Cycle)
            → StandsAt kind p before known self.old.heads
            → WentBy kind more before (S.sight side.now)
            → IsProfileOf image (caches_params p) kind run self.old
            → IsProfileOf image (caches_params p) kind
            (run ++ cycles_from kind p known (facts_since more before (S.sight side.now)))
            self.new }
        ensures sum { cycles_of self.new ≡ (S.sight side.now).cycle }
    {
        let facts = self.heads.last.facts(side);
        self.count_cycle(&facts, side);
        self.pass_idle(side);
    }

    /// Counts a cycle that did this, and passes it.
    fn count_cycle<S: Watched>(&mut self, facts: &Facts, side: &S)
        requires standing { MayPass self.old.heads (S.sight side.now) facts.now }
        requires few { facts.now.before ≤ 256 }
        requires each { length self.old.counts.items ≡ length self.old.rows + 1 }
        ensures stands { (kind : WhichPipeline) (p : Params) (before : Sight) (known : Known)
            → StandsAt kind p before known self.old.heads → Follows before (S.sight side.now)
            → IsTold before (S.sight side.now) facts.now
            → StandsAt kind p (at_cycle (before.cycle + 1) (S.sight side.now))
            (known_after kind p (cycle_facts before (S.sight side.now)) known) self.new.heads }
        ensures profiled { (image : Image) (kind : WhichPipeline) (p : Params) (before : Sight)
            (known : Known) (run : List Cycle) → StandsAt kind p before known self.old.heads
            → Follows before (S.sight side.now) → IsTold before (S.sight side.now) facts.now
            → IsProfileOf image (caches_params p) kind run self.old
            → IsProfileOf image (caches_params p) kind
            (run ++ cycles_from kind p known (cycle_facts before (S.sight side.now) ∷ []))
            self.new }
        ensures each { length self.new.counts.items ≡ length self.new.rows + 1 }
    {
        let head = self.heads.head(facts, side);
        self.count_old(facts, head);
        self.heads.pass(facts, side);
        self.count_new(facts);
    }

    /// Counts what happened in a cycle to those that were under way before it.
    fn count_old(&mut self, facts: &Facts, head: Charge)
        requires each { length self.old.counts.items ≡ length self.old.rows + 1 }
        requires left { facts.now.left ≤ length self.old.heads.last.marks.items }
        requires all { facts.now.before ≡ length self.old.heads.last.marks.items }
        requires within { facts.now.left + facts.now.kept ≤ facts.now.before }
        requires trap { facts.now.trapped ≡ true → 0 < facts.now.left }
        ensures passed { Passes (λ image. spent_event image head 1 ∷ events_before image
            facts.now (window_in self.old.heads.last.marks.items))
            (filter_map store_access (retired_before facts.now
            (window_in self.old.heads.last.marks.items))) [] self.old self.new }
        ensures rest { self.new
            ≡ record self.old { caches = self.new.caches; counts = self.new.counts } }
        ensures each { length self.new.counts.items ≡ length self.new.rows + 1 }
    {
        self.spend(head, 1);
        self.count_before(facts);
        self.make_stores(facts);
    }

    /// Counts what is seen in the cycle that was passed of those that are under way after it.
    fn count_new(&mut self, facts: &Facts)
        requires each { length self.old.counts.items ≡ length self.old.rows + 1 }
        ensures passed { Passes (λ image. events_at image fetched
            (drop facts.now.kept (window_in self.old.heads.last.marks.items)))
            (map access_in self.old.heads.last.loads.items ++ filter_map fetch_access
            (fetched_after facts.now (window_in self.old.heads.last.marks.items))
            ++ map fetch_at_address (option_to_list facts.now.missed))
            (drop facts.now.kept (window_in self.old.heads.last.marks.items))
            self.old self.new }
        ensures rest { self.new
            ≡ record self.old { caches = self.new.caches; counts = self.new.counts } }
        ensures each { length self.new.counts.items ≡ length self.new.rows + 1 }
    {
        self.make_loads();
        self.count_appended(facts);
        self.make_fetches(facts);
        self.make_missed(facts);
    }

    /// Passes the cycles in which nothing happened.
    fn pass_idle<S: Watched>(&mut self, side: &S)
        requires standing { self.old.heads.last.cycle < (S.sight side.now).cycle
            → StandsBetween self.old.heads (S.sight side.now) }
        requires within { self.old.heads.last.cycle ≤ (S.sight side.now).cycle }
        requires each { length self.old.counts.items ≡ length self.old.rows + 1 }
        ensures stands { (p : Params) (known : Known)
            → StandsAt Window p (at_cycle self.old.heads.last.cycle (S.sight side.now)) known
            self.old.heads
            → StandsAt Window p (S.sight side.now) (known_later Window p known (idle_between
            self.old.heads.last.cycle (S.sight side.now).cycle (S.sight side.now))) self.new.heads }
        ensures profiled { (image : Image) (p : Params) (known : Known) (run : List Cycle)
            → StandsAt Window p (at_cycle self.old.heads.last.cycle (S.sight side.now)) known
            self.old.heads → IsProfileOf image (caches_params p) Window run self.old
            → IsProfileOf image (caches_params p) Window (run ++ cycles_from Window p known
            (idle_between self.old.heads.last.cycle (S.sight side.now).cycle (S.sight side.now)))
            self.new }
        ensures none { self.old.heads.last.cycle ≡ (S.sight side.now).cycle
            → self.new ≡ self.old }
    {
        while self.heads.last.cycle < side.cycle() {
            let facts = self.heads.last.idle_facts();
            self.spend_alike(&facts, side);
        }
    }

    /// Counts cycles that are alike, and passes them.
    fn spend_alike<S: Watched>(&mut self, facts: &Facts, side: &S)
        requires standing { StandsBetween self.old.heads (S.sight side.now) }
        requires before { self.old.heads.last.cycle < (S.sight side.now).cycle }
        requires told { IsTold (at_cycle self.old.heads.last.cycle (S.sight side.now))
            (idle (at_cycle self.old.heads.last.cycle (S.sight side.now))) facts.now }
        requires each { length self.old.counts.items ≡ length self.old.rows + 1 }
        ensures further { self.old.heads.last.cycle < self.new.heads.last.cycle }
        ensures within { self.new.heads.last.cycle ≤ (S.sight side.now).cycle }
        ensures stands { (p : Params) (known : Known)
            → StandsAt Window p (at_cycle self.old.heads.last.cycle (S.sight side.now)) known
            self.old.heads
            → StandsAt Window p (at_cycle self.new.heads.last.cycle (S.sight side.now))
            (known_later Window p known (idle_between self.old.heads.last.cycle
            self.new.heads.last.cycle (S.sight side.now))) self.new.heads }
        ensures profiled { (image : Image) (p : Params) (known : Known) (run : List Cycle)
            → StandsAt Window p (at_cycle self.old.heads.last.cycle (S.sight side.now)) known
            self.old.heads → IsProfileOf image (caches_params p) Window run self.old
            → IsProfileOf image (caches_params p) Window (run ++ cycles_from Window p known
            (idle_between self.old.heads.last.cycle self.new.heads.last.cycle
            (S.sight side.now))) self.new }
        ensures each { length self.new.counts.items ≡ length self.new.rows + 1 }
    {
        let head = self.heads.head(facts, side);
        let cycles = self.heads.pass_alike(side.cycle());
        self.spend(head, cycles);
    }

    /// Counts cycles that are charged so.
    fn spend(&mut self, head: Charge, cycles: u64)
        requires each { length self.old.counts.items ≡ length self.old.rows + 1 }
        ensures counted { (image : Image) (all : List Event) (appended : List ShownSeen)
            → HasCounted image all appended self.old
            → HasCounted image (all ++ spent_event image head cycles ∷ []) appended self.new }
        ensures rest { self.new ≡ record self.old { counts = self.new.counts } }
        ensures each { length self.new.counts.items ≡ length self.new.rows + 1 }
    {
        let row = self.rows.row(head.addr);
        self.counts[row].spend(cause_place(head.cause), cycles);
    }

    /// Counts an instruction at an address, to which this happened.
    fn count(&mut self, column: Column, addr: u32)
        requires each { length self.old.counts.items ≡ length self.old.rows + 1 }
        ensures counted { (image : Image) (all : List Event) (appended : List ShownSeen)
            → HasCounted image all appended self.old
            → HasCounted image (all ++ once image (column_in column) addr ∷ []) appended self.new }
        ensures rest { self.new ≡ record self.old { counts = self.new.counts } }
        ensures each { length self.new.counts.items ≡ length self.new.rows + 1 }
    {
        let row = self.rows.row(addr);
        self.counts[row].count(column);
    }

    /// Counts those that were under way before the cycle, by what happened to them in it.
    fn count_before(&mut self, facts: &Facts)
        requires each { length self.old.counts.items ≡ length self.old.rows + 1 }
        requires left { facts.now.left ≤ length self.old.heads.last.marks.items }
        requires all { facts.now.before ≡ length self.old.heads.last.marks.items }
        requires within { facts.now.left + facts.now.kept ≤ facts.now.before }
        requires trap { facts.now.trapped ≡ true → 0 < facts.now.left }
        ensures counted { (image : Image) (all : List Event) (appended : List ShownSeen)
            → HasCounted image all appended self.old → HasCounted image (all ++ events_before image
            facts.now (window_in self.old.heads.last.marks.items)) appended self.new }
        ensures rest { self.new ≡ record self.old { counts = self.new.counts } }
        ensures each { length self.new.counts.items ≡ length self.new.rows + 1 }
    {
        self.count_retired(facts);
        self.count_trapped(facts);
        self.count_squashed(facts);
        self.count_mispredicted(facts);
    }

    /// Counts those that retired.
    fn count_retired(&mut self, facts: &Facts)
        requires each { length self.old.counts.items ≡ length self.old.rows + 1 }
        requires left { facts.now.left ≤ length self.old.heads.last.marks.items }
        ensures counted { (image : Image) (all : List Event) (appended : List ShownSeen)
            → HasCounted image all appended self.old
            → HasCounted image (all ++ flat_map (retired_events image)
            (retired_before facts.now (window_in self.old.heads.last.marks.items)))
            appended self.new }
        ensures rest { self.new ≡ record self.old { counts = self.new.counts } }
        ensures each { length self.new.counts.items ≡ length self.new.rows + 1 }
    {
        for place in 0..facts.retired() {
            let shown = self.heads.last.mark(place).shown;
            self.count_one_retired(&shown);
        }
    }

    /// Counts one that retired.
    fn count_one_retired(&mut self, shown: &Shown)
        requires each { length self.old.counts.items ≡ length self.old.rows + 1 }
        ensures counted { (image : Image) (all : List Event) (appended : List ShownSeen)
            → HasCounted image all appended self.old
            → HasCounted image (all ++ retired_events image (shown_in shown.now)) appended self.new }
        ensures rest { self.new ≡ record self.old { counts = self.new.counts } }
        ensures each { length self.new.counts.items ≡ length self.new.rows + 1 }
    {
        self.count(Column::Retired, shown.addr);
        if shown.is_taken() {
            self.count(Column::Taken, shown.addr);
        }
    }

    /// Counts the one that trapped, if one did: the last that left.
    fn count_trapped(&mut self, facts: &Facts)
        requires each { length self.old.counts.items ≡ length self.old.rows + 1 }
        requires left { facts.now.left ≤ length self.old.heads.last.marks.items }
        requires trap { facts.now.trapped ≡ true → 0 < facts.now.left }
        ensures counted { (image : Image) (all : List Event) (appended : List ShownSeen)
            → HasCounted image all appended self.old
            → HasCounted image (all ++ events_at image trapped (option_to_list
            (trapped_before facts.now (window_in self.old.heads.last.marks.items))))
            appended self.new }
        ensures rest { self.new ≡ record self.old { counts = self.new.counts } }
        ensures each { length self.new.counts.items ≡ length self.new.rows + 1 }
    {
        if facts.trapped {
            let addr = self.heads.last.mark(facts.left - 1).shown.addr;
            self.count(Column::Trapped, addr);
        }
    }

    /// Counts those that were squashed.
    fn count_squashed(&mut self, facts: &Facts)
        requires each { length self.old.counts.items ≡ length self.old.rows + 1 }
        requires all { facts.now.before ≡ length self.old.heads.last.marks.items }
        requires within { facts.now.left + facts.now.kept ≤ facts.now.before }
        ensures counted { (image : Image) (all : List Event) (appended : List ShownSeen)
            → HasCounted image all appended self.old
            → HasCounted image (all ++ events_at image squashed (drop (facts.now.left
            + facts.now.kept) (window_in self.old.heads.last.marks.items))) appended self.new }
        ensures rest { self.new ≡ record self.old { counts = self.new.counts } }
        ensures each { length self.new.counts.items ≡ length self.new.rows + 1 }
    {
        for place in facts.left + facts.kept..facts.before {
            let addr = self.heads.last.mark(place).shown.addr;
            self.count(Column::Squashed, addr);
        }
    }

    /// Counts the one that was mispredicted, if one was.
    fn count_mispredicted(&mut self, facts: &Facts)
        requires each { length self.old.counts.items ≡ length self.old.rows + 1 }
        ensures counted { (image : Image) (all : List Event) (appended : List ShownSeen)
            → HasCounted image all appended self.old
            → HasCounted image (all ++ events_at image mispredicted (option_to_list
            (wrong_before facts.now (window_in self.old.heads.last.marks.items))))
            appended self.new }
        ensures rest { self.new ≡ record self.old { counts = self.new.counts } }
        ensures each { length self.new.counts.items ≡ length self.new.rows + 1 }
    {
        if let Some(addr) = self.wrong_addr(facts) {
            self.count(Column::Mispredicted, addr);
        }
    }

    /// The address of the one that was mispredicted, if one was.
    fn wrong_addr(&self, facts: &Facts) -> Option<u32>
        ensures addr { result ≡ option_map (λ rec. rec.addr)
            (wrong_before facts.now (window_in self.now.heads.last.marks.items)) }
    {
        let mark = self.heads.last.mark_after(facts.left, facts.mispredicted?)?;
        Some(mark.shown.addr)
    }

    /// Counts those that were appended in the cycle that was passed.
    fn count_appended(&mut self, facts: &Facts)
        requires each { length self.old.counts.items ≡ length self.old.rows + 1 }
        ensures counted { (image : Image) (all : List Event) (appended : List ShownSeen)
            → HasCounted image all appended self.old
            → HasCounted image (all ++ events_at image fetched
            (drop facts.now.kept (window_in self.old.heads.last.marks.items)))
            (appended ++ drop facts.now.kept (window_in self.old.heads.last.marks.items))
            self.new }
        ensures rest { self.new ≡ record self.old { counts = self.new.counts } }
        ensures each { length self.new.counts.items ≡ length self.new.rows + 1 }
    {
        for place in facts.kept..self.heads.last.marks.len() {
            let shown = self.heads.last.mark(place).shown;
            self.count_one_appended(&shown);
        }
    }

    /// Counts one that was appended, and notes its word.
    fn count_one_appended(&mut self, shown: &Shown)
        requires each { length self.old.counts.items ≡ length self.old.rows + 1 }
        ensures counted { (image : Image) (all : List Event) (appended : List ShownSeen)
            → HasCounted image all appended self.old
            → HasCounted image (all ++ once image fetched shown.now.addr ∷ [])
            (appended ++ shown_in shown.now ∷ []) self.new }
        ensures rest { self.new ≡ record self.old { counts = self.new.counts } }
        ensures each { length self.new.counts.items ≡ length self.new.rows + 1 }
    {
        let row = self.rows.row(shown.addr);
        self.counts[row].append(shown.word.unwrap_or(0));
    }

    /// Makes the stores of those that retired.
    fn make_stores(&mut self, facts: &Facts)
        requires each { length self.old.counts.items ≡ length self.old.rows + 1 }
        requires left { facts.now.left ≤ length self.old.heads.last.marks.items }
        ensures made { Makes (filter_map store_access
            (retired_before facts.now (window_in self.old.heads.last.marks.items)))
            self.old self.new }
        ensures rest { self.new
            ≡ record self.old { caches = self.new.caches; counts = self.new.counts } }
        ensures each { length self.new.counts.items ≡ length self.new.rows + 1 }
    {
        for place in 0..facts.retired() {
            let shown = self.heads.last.mark(place).shown;
            self.make_store(&shown);
        }
    }

    /// Makes the store of one that retired, if it made one.
    fn make_store(&mut self, shown: &Shown)
        requires each { length self.old.counts.items ≡ length self.old.rows + 1 }
        ensures made { Makes (option_to_list (store_access (shown_in shown.now)))
            self.old self.new }
        ensures rest { self.new
            ≡ record self.old { caches = self.new.caches; counts = self.new.counts } }
        ensures each { length self.new.counts.items ≡ length self.new.rows + 1 }
    {
        if let Some(addr) = shown.ram_store() {
            self.store(shown.addr, addr);
        }
    }

    /// Makes the loads of the cycle that was passed.
    fn make_loads(&mut self)
        requires each { length self.old.counts.items ≡ length self.old.rows + 1 }
        ensures made { Makes (map access_in self.old.heads.last.loads.items) self.old self.new }
        ensures rest { self.new
            ≡ record self.old { caches = self.new.caches; counts = self.new.counts } }
        ensures each { length self.new.counts.items ≡ length self.new.rows + 1 }
    {
        for place in 0..self.heads.last.loads.len() {
            let made = self.heads.last.loads[place];
            self.load(made.by, made.addr);
        }
    }

    /// Makes the fetches of those that were appended, but for the one that was waited for.
    fn make_fetches(&mut self, facts: &Facts)
        requires each { length self.old.counts.items ≡ length self.old.rows + 1 }
        ensures made { Makes (filter_map fetch_access
            (fetched_after facts.now (window_in self.old.heads.last.marks.items)))
            self.old self.new }
        ensures rest { self.new
            ≡ record self.old { caches = self.new.caches; counts = self.new.counts } }
        ensures each { length self.new.counts.items ≡ length self.new.rows + 1 }
    {
        for place in first_fetched(facts)..self.heads.last.marks.len() {
            let shown = self.heads.last.mark(place).shown;
            self.make_fetch(&shown);
        }
    }

    /// Makes the fetch of one that was appended, if it could be fetched.
    fn make_fetch(&mut self, shown: &Shown)
        requires each { length self.old.counts.items ≡ length self.old.rows + 1 }
        ensures made { Makes (option_to_list (fetch_access (shown_in shown.now)))
            self.old self.new }
        ensures rest { self.new
            ≡ record self.old { caches = self.new.caches; counts = self.new.counts } }
        ensures each { length self.new.counts.items ≡ length self.new.rows + 1 }
    {
        if shown.word.is_some() {
            self.fetch(shown.addr);
        }
    }

    /// Makes the fetch whose miss began, if one did.
    fn make_missed(&mut self, facts: &Facts)
        requires each { length self.old.counts.items ≡ length self.old.rows + 1 }
        ensures made { Makes (map fetch_at_address (option_to_list facts.now.missed))
            self.old self.new }
        ensures rest { self.new
            ≡ record self.old { caches = self.new.caches; counts = self.new.counts } }
        ensures each { length self.new.counts.items ≡ length self.new.rows + 1 }
    {
        if let Some(addr) = facts.missed {
            self.fetch(addr);
        }
    }

    /// Makes the fetch of the instruction at an address.
    fn fetch(&mut self, by: u32)
        requires each { length self.old.counts.items ≡ length self.old.rows + 1 }
        ensures made { Makes (record { by = by; what = fetches by } ∷ []) self.old self.new }
        ensures rest { self.new
            ≡ record self.old { caches = self.new.caches; counts = self.new.counts } }
        ensures each { length self.new.counts.items ≡ length self.new.rows + 1 }
    {
        let before = self.caches.counts();
        self.caches.fetch(by);
        let after = self.caches.counts();
        self.charge(by, &before, &after);
    }

    /// Makes the load of the instruction at an address.
    fn load(&mut self, by: u32, addr: u32)
        requires each { length self.old.counts.items ≡ length self.old.rows + 1 }
        ensures made { Makes (record { by = by; what = loads addr } ∷ []) self.old self.new }
        ensures rest { self.new
            ≡ record self.old { caches = self.new.caches; counts = self.new.counts } }
        ensures each { length self.new.counts.items ≡ length self.new.rows + 1 }
    {
        let before = self.caches.counts();
        self.caches.load(addr);
        let after = self.caches.counts();
        self.charge(by, &before, &after);
    }

    /// Makes the store of the instruction at an address.
    fn store(&mut self, by: u32, addr: u32)
        requires each { length self.old.counts.items ≡ length self.old.rows + 1 }
        ensures made { Makes (record { by = by; what = stores addr } ∷ []) self.old self.new }
        ensures rest { self.new
            ≡ record self.old { caches = self.new.caches; counts = self.new.counts } }
        ensures each { length self.new.counts.items ≡ length self.new.rows + 1 }
    {
        let before = self.caches.counts();
        self.caches.store(addr);
        let after = self.caches.counts();
        self.charge(by, &before, &after);
    }

    /// Counts at an address by how much counts of the caches rose.
    fn charge(&mut self, by: u32, before: &CacheCounts, after: &CacheCounts)
        requires each { length self.old.counts.items ≡ length self.old.rows + 1 }
        ensures counted { (image : Image) (all : List Event) (appended : List ShownSeen)
            → HasCounted image all appended self.old
            → HasCounted image (all ++ cache_events (row_of image by) (rise before.now after.now))
            appended self.new }
        ensures rest { self.new ≡ record self.old { counts = self.new.counts } }
        ensures each { length self.new.counts.items ≡ length self.new.rows + 1 }
    {
        let row = self.rows.row(by);
        self.counts[row].add_caches(before, after);
    }

    /// Writes the rows in which something was counted, by address.
    ///
    /// Ok says that the whole text was written. A fault comes only where the sink's count of faults
    /// rose, and then a proper prefix of the text was written. It takes no memory.
    pub fn write<K: Sink>(&self, sink: &mut K) -> Result<(), WriteFault>
        ensures count { K.faults sink.old ≤ K.faults sink.new }
        ensures written { (setup : RunSetup) (kind : WhichPipeline) (run : List Cycle)
            → IsProfileOf setup.image (caches_params setup.params) kind run self.now
            → length run < 2 ^ 48 → Puts (profile_of kind setup run) (K.faults sink.old)
            (K.faults sink.new) (K.written sink.old) (K.written sink.new) result }
    {
        profile_header(sink)?;
        self.write_rows(sink)
    }

    /// The same without the names of the columns.
    fn write_rows<K: Sink>(&self, sink: &mut K) -> Result<(), WriteFault>
        ensures count { K.faults sink.old ≤ K.faults sink.new }
        ensures written { (setup : RunSetup) (kind : WhichPipeline) (run : List Cycle)
            → IsProfileOf setup.image (caches_params setup.params) kind run self.now
            → length run < 2 ^ 48
            → Puts (joined (profile_lines setup run (events kind setup run))) (K.faults sink.old)
            (K.faults sink.new) (K.written sink.old) (K.written sink.new) result }
    {
        for (place, row) in self.counts.iter().enumerate() {
            write_row(self.rows.address(place), row, sink)?;
        }
        Ok(())
    }
}

/// Writes the row of an address, if something was counted in it.
fn write_row<K: Sink>(addr: Option<u32>, row: &ProfileRow, sink: &mut K) -> Result<(), WriteFault>
    ensures count { K.faults sink.old ≤ K.faults sink.new }
    ensures written { Puts (row_text addr row.now) (K.faults sink.old) (K.faults sink.new)
        (K.written sink.old) (K.written sink.new) result }
{
    if row.is_some() {
        number_row(addr, row.word, &row.numbers(), sink)
    } else {
        Ok(())
    }
}
