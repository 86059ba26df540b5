ghost use Rattle.std.specs.Prelude.{◌≡◌, ◌+◌, ◌<◌, ◌≤◌, ◌^◌, ◌∷◌, ◌++◌, ℕ, [], List, IfOk};
ghost use Rattle.std.specs.Prelude.{length, slice_index, sum};
ghost use Rattle.mono_model.specs.declared.params.Params.{Params};
ghost use Rattle.insight_model.specs.declared.pipeline.Pipeline.{Pipeline as WhichPipeline};
ghost use Rattle.insight_model.specs.declared.pipeline.Pipeline.TheVariants.{Window};
ghost use Rattle.insight_model.specs.Sight.{Sight};
ghost use Rattle.insight_model.specs.Facts.{facts as cycle_facts};
ghost use Rattle.insight_model.specs.Fetch.{fetch_end_place};
ghost use Rattle.insight_model.specs.Head.{Known};
ghost use Rattle.insight_model.specs.Cycles.{Cycle, cycles_from, known_start};
ghost use Rattle.cycle_watch.specs.Facts.{Follows, IsTold, at_cycle, idle};
ghost use Rattle.cycle_watch.specs.Known.{MayPass, StandsAt};
ghost use Rattle.cycle_watch.specs.Passing.{WentBy, facts_since, idle_between, known_later};
ghost use Rattle.cycle_watch.specs.Counted.{HasCountRoom, IsStackOf, IsStacking, IsStackingBetween};
ghost use Rattle.cycle_watch.specs.Counted.{counted, raised};

use crate::charge::cause_place;
use crate::facts::Facts;
use crate::heads::Heads;
use crate::watched::Watched;
use fsim_base::NoMemory;
use insight_model::{CycleCause, FetchEnd, Pipeline};
use mono_model::Setup;
use report_text::StackCounts;
use std::alloc::Global;

/// What the cycles of a run were spent on, as they go by.
#[derive(Drop)]
pub struct Stacking {
    heads: Heads,
    counts: StackCounts,
}

/// The place of why fetch ended, in the order in which that is written.
fn fetch_end_place(end: FetchEnd) -> usize
    ensures place { result ≡ fetch_end_place end }
{
    match end {
        FetchEnd::Width => 0,
        FetchEnd::Taken => 1,
        FetchEnd::Window => 2,
        FetchEnd::Stations => 3,
        FetchEnd::Icache => 4,
        FetchEnd::Ended => 5,
    }
}

/// Counts at a place that so many more cycles went by.
fn raise(counts: &mut [u64], place: usize, cycles: u64)
    requires within { place < length counts.old }
    requires fits { slice_index counts.old place + cycles < 2 ^ 64 }
    ensures raised { counts.new ≡ raised counts.old place cycles }
{
    counts[place] += cycles;
}

/// Counts cycles that were spent so: on what, and why fetch ended; how many waited as each began,
/// and how many cycles these were.
fn add(
    counts: &mut StackCounts,
    facts: &Facts,
    head: CycleCause,
    end: FetchEnd,
    waiting: u32,
    cycles: u64,
)
    requires room { HasCountRoom counts.old }
    requires left { facts.now.left ≤ 8 }
    requires few { facts.now.before ≤ 256 }
    requires waiting { waiting ≤ 256 }
    requires short { cycles < 2 ^ 48 }
    ensures counted { counts.new
        ≡ counted facts.now head end waiting cycles counts.old }
{
    raise(&mut counts.heads, cause_place(head), cycles);
    raise(&mut counts.ends, fetch_end_place(end), cycles);
    raise(&mut counts.left, facts.left, cycles);
    counts.occupied += facts.before as u64 * cycles;
    counts.waiting += u64::from(waiting) * cycles;
}

impl Stacking {
    /// Before the first cycle of a run. All memory is taken here.
    pub fn new<S: Watched>(
        alloc: Global,
        pipeline: Pipeline,
        setup: &Setup,
        side: &S,
    ) -> Result<Stacking, NoMemory>
        requires start { (S.sight side.now).cycle ≡ 0 }
        requires empty { (S.sight side.now).window ≡ [] }
        ensures stands { IfOk result (λ stacking. StandsAt pipeline setup.now.params
            (S.sight side.now) (known_start setup.now.image.entry) stacking.heads) }
        ensures counted { IfOk result (λ stacking.
            IsStackOf pipeline setup.now.params [] stacking.counts) }
        ensures sum { IfOk result (λ stacking. sum stacking.counts.heads ≡ 0) }
    {
        let heads = Heads::new(alloc, pipeline, setup, side)?;
        let counts = StackCounts {
            heads: [0; 19],
            ends: [0; 6],
            left: [0; 9],
            occupied: 0,
            waiting: 0,
        };
        Ok(Stacking { heads, counts })
    }

    /// Looks at the start of the next cycle, or a later one where nothing happened in those before
    /// it.
    pub fn look<S: Watched>(&mut self, side: &S)
        requires standing { IsStacking self.old (S.sight side.now) }
        ensures stands { (kind : WhichPipeline) (p : Params) (before : Sight) (known : Known)
            (more : ℕ) → StandsAt kind p before known self.old.heads
            → WentBy kind more before (S.sight side.now)
            → StandsAt kind p (S.sight side.now)
            (known_later kind p known (facts_since more before (S.sight side.now)))
            self.new.heads }
        ensures counted { (kind : WhichPipeline) (p : Params) (before : Sight) (known : Known)
            (more : ℕ) (run : List Cycle) → StandsAt kind p before known self.old.heads
            → WentBy kind more before (S.sight side.now) → IsStackOf kind p run self.old.counts
            → IsStackOf kind p
            (run ++ cycles_from kind p known (facts_since more before (S.sight side.now)))
            self.new.counts }
        ensures sum { sum self.new.counts.heads ≡ (S.sight side.now).cycle }
    {
        let facts = self.heads.last.facts(side);
        self.count(&facts, side);
        self.heads.pass(&facts, side);
        self.pass_idle(side);
    }

    /// Passes the cycles in which nothing happened.
    fn pass_idle<S: Watched>(&mut self, side: &S)
        requires standing { self.old.heads.last.cycle < (S.sight side.now).cycle
            → IsStackingBetween self.old (S.sight side.now) }
        requires within { self.old.heads.last.cycle ≤ (S.sight side.now).cycle }
        ensures stands { (p : Params) (known : Known)
            → StandsAt Window p (at_cycle self.old.heads.last.cycle (S.sight side.now)) known
            self.old.heads
            → StandsAt Window p (S.sight side.now) (known_later Window p known (idle_between
            self.old.heads.last.cycle (S.sight side.now).cycle (S.sight side.now))) self.new.heads }
        ensures counted { (p : Params) (known : Known) (run : List Cycle)
            → StandsAt Window p (at_cycle self.old.heads.last.cycle (S.sight side.now)) known
            self.old.heads → IsStackOf Window p run self.old.counts
            → IsStackOf Window p (run ++ cycles_from Window p known (idle_between
            self.old.heads.last.cycle (S.sight side.now).cycle (S.sight side.now)))
            self.new.counts }
        ensures none { self.old.heads.last.cycle ≡ (S.sight side.now).cycle
            → self.new ≡ self.old }
    {
        while self.heads.last.cycle < side.cycle() {
            let facts = self.heads.last.idle_facts();
            self.count_alike(&facts, side);
        }
    }

    /// Counts cycles that are alike, and passes them.
    fn count_alike<S: Watched>(&mut self, facts: &Facts, side: &S)
        requires standing { IsStackingBetween self.old (S.sight side.now) }
        requires before { self.old.heads.last.cycle < (S.sight side.now).cycle }
        requires told { IsTold (at_cycle self.old.heads.last.cycle (S.sight side.now))
            (idle (at_cycle self.old.heads.last.cycle (S.sight side.now))) facts.now }
        ensures further { self.old.heads.last.cycle < self.new.heads.last.cycle }
        ensures within { self.new.heads.last.cycle ≤ (S.sight side.now).cycle }
        ensures stands { (p : Params) (known : Known)
            → StandsAt Window p (at_cycle self.old.heads.last.cycle (S.sight side.now)) known
            self.old.heads
            → StandsAt Window p (at_cycle self.new.heads.last.cycle (S.sight side.now))
            (known_later Window p known (idle_between self.old.heads.last.cycle
            self.new.heads.last.cycle (S.sight side.now))) self.new.heads }
        ensures counted { (p : Params) (known : Known) (run : List Cycle)
            → StandsAt Window p (at_cycle self.old.heads.last.cycle (S.sight side.now)) known
            self.old.heads → IsStackOf Window p run self.old.counts
            → IsStackOf Window p (run ++ cycles_from Window p known (idle_between
            self.old.heads.last.cycle self.new.heads.last.cycle (S.sight side.now)))
            self.new.counts }
    {
        let head = self.heads.head(facts, side).cause;
        let end = self.heads.fetch_end(facts, side);
        let waiting = self.heads.last.waiting;
        let cycles = self.heads.pass_alike(side.cycle());
        add(&mut self.counts, facts, head, end, waiting, cycles);
    }

    /// Counts a cycle that did this.
    fn count<S: Watched>(&mut self, facts: &Facts, side: &S)
        requires standing { MayPass self.old.heads (S.sight side.now) facts.now }
        requires left { facts.now.left ≤ 8 }
        requires few { facts.now.before ≤ 256 }
        requires room { HasCountRoom self.old.counts }
        ensures heads { self.new.heads ≡ self.old.heads }
        ensures counted { (kind : WhichPipeline) (p : Params) (before : Sight) (known : Known)
            (run : List Cycle) → StandsAt kind p before known self.old.heads
            → Follows before (S.sight side.now) → IsTold before (S.sight side.now) facts.now
            → IsStackOf kind p run self.old.counts
            → IsStackOf kind p
            (run ++ cycles_from kind p known (cycle_facts before (S.sight side.now) ∷ []))
            self.new.counts }
    {
        let head = self.heads.head(facts, side).cause;
        let end = self.heads.fetch_end(facts, side);
        let waiting = self.heads.last.waiting;
        add(&mut self.counts, facts, head, end, waiting, 1);
    }

    /// What was counted.
    pub fn counts(&self) -> &StackCounts
        ensures counts { result.now ≡ self.now.counts }
    {
        &self.counts
    }
}
