//! The steps of the timing side.
#![tactic(auto)]

ghost use Rattle.std.specs.Prelude.{◌≡◌, ℕ, suc, false};
ghost use Rattle.trace_entry.specs.declared.Entry.{Entry};
ghost use Rattle.mono_model.specs.declared.setup.Setup.{Setup};
ghost use Rattle.mono_model.specs.Machine.{stats_of};
ghost use Rattle.mono_model.specs.Path.{openings};
ghost use Rattle.mono_model.specs.Demand.{place_start, place, told, needs_entry, needed_entry};
ghost use Rattle.mono_model.specs.Split.{told_by};
ghost use Rattle.timing_side.specs.Timing.{timing_stats};
ghost use Rattle.timing_side.specs.Step.{TimingPlace, timing_place_start, timing_step, wants_entry};
ghost use Rattle.timing_laws.specs.Seen.{seen_at};

/// The timing side starts where the demand run starts, wants an entry where that needs one, and
/// with the entry that is needed makes its step and tells its order.
#[tactic(auto, using(crate::proofs::Stepping::starts, crate::proofs::Stepping::place_step, crate::proofs::Stepping::place_wants))]
pub fn timing_side_makes_the_steps_of_the_demand_run()
    ensures start { (s : Setup) → seen_at s (place_start s) ≡ timing_place_start }
    ensures step { (s : Setup) (k : ℕ)
        → timing_step s (needed_entry s (place s k)) (seen_at s (place s k))
        ≡ record {
          place = seen_at s (place s (suc k));
          told = told_by (place s k) (place s (suc k));
        } }
    ensures wants { (s : Setup) (k : ℕ)
        → wants_entry (seen_at s (place s k)) ≡ needs_entry (place s k) }
{}

/// A step that wants no entry is the same whatever entry is at hand.
#[tactic(auto, using(crate::proofs::Stepping::entry_free))]
pub fn step_without_a_try_needs_no_entry()
    ensures same { (s : Setup) (e f : Entry) (p : TimingPlace) → wants_entry p ≡ false
        → timing_step s e p ≡ timing_step s f p }
{}

/// What the timing side shows of the run is what the demand run has there: the cycle, the counts,
/// the end, the number of the next instruction to commit, the turn that comes next and the epoch.
#[tactic(auto, using(crate::proofs::Stepping::place_cycle, crate::proofs::Stepping::place_stats, crate::proofs::Stepping::place_end, crate::proofs::Stepping::place_done, crate::proofs::Stepping::place_at, crate::proofs::Stepping::place_epoch))]
pub fn timing_side_shows_the_run()
    ensures cycle { (s : Setup) (k : ℕ)
        → (seen_at s (place s k)).timing.cycle ≡ (place s k).run.demand.machine.cycle }
    ensures stats { (s : Setup) (k : ℕ)
        → timing_stats s (seen_at s (place s k)).timing
        ≡ stats_of s (place s k).run.demand.machine }
    ensures end { (s : Setup) (k : ℕ)
        → (seen_at s (place s k)).timing.end ≡ (place s k).run.demand.machine.end }
    ensures done { (s : Setup) (k : ℕ)
        → (seen_at s (place s k)).timing.to_commit ≡ (place s k).run.demand.to_commit }
    ensures at { (s : Setup) (k : ℕ) → (seen_at s (place s k)).at ≡ (place s k).run.at }
    ensures epoch { (s : Setup) (k : ℕ)
        → (seen_at s (place s k)).epoch ≡ openings (told (place s k)) }
{}

/// Of the setup a step reads its parameters, its limit of cycles and its limit of output, and no
/// more.
#[tactic(auto, using(crate::proofs::Knowing::step_knows))]
pub fn step_reads_parameters_and_limits_alone()
    ensures same { (s t : Setup) (e : Entry) (p : TimingPlace) → s.params ≡ t.params
        → s.cycles ≡ t.cycles → s.output ≡ t.output
        → timing_step s e p ≡ timing_step t e p }
{}
