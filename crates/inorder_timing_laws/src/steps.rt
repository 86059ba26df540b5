//! The steps of the timing side.
#![tactic(auto)]

ghost use Rattle.std.specs.Prelude.{◌≡◌, ℕ, suc, false};
ghost use Rattle.trace_entry.specs.declared.Entry.{Entry};
ghost use Rattle.mono_model.specs.declared.setup.Setup.{Setup};
ghost use Rattle.mono_model.specs.Machine.{stats_of};
ghost use Rattle.mono_model.specs.Path.{openings};
ghost use Rattle.mono_model.specs.Demand.{told, needs_entry, needed_entry};
ghost use Rattle.mono_model.specs.Split.{told_by};
ghost use Rattle.timing_side.specs.Timing.{timing_stats};
ghost use Rattle.inorder_machine.specs.Demand.{inorder_place_start, inorder_place, seen};
ghost use Rattle.inorder_side.specs.Step.{InorderTimingPlace, inorder_timing_place_start};
ghost use Rattle.inorder_side.specs.Step.{timing_inorder_step, wants_entry};
ghost use Rattle.inorder_timing_laws.specs.Seen.{inorder_held_at};

/// The timing side starts where the demand run starts, wants an entry where that needs one, and
/// with the entry that is needed makes its step and tells its order.
#[tactic(auto, using(crate::proofs::Stepping::inorder_starts, crate::proofs::Stepping::inorder_place_step, crate::proofs::Stepping::inorder_place_wants))]
pub fn in_order_timing_side_makes_the_steps_of_its_run()
    ensures start { (s : Setup)
        → inorder_held_at s (inorder_place_start s) ≡ inorder_timing_place_start }
    ensures step { (s : Setup) (k : ℕ)
        → timing_inorder_step s (needed_entry s (seen s k)) (inorder_held_at s (inorder_place s k))
        ≡ record {
          place = inorder_held_at s (inorder_place s (suc k));
          told = told_by (seen s k) (seen s (suc k));
        } }
    ensures wants { (s : Setup) (k : ℕ)
        → wants_entry (inorder_held_at s (inorder_place s k)) ≡ needs_entry (seen s k) }
{}

/// A step that wants no entry is the same whatever entry is at hand.
#[tactic(auto, using(crate::proofs::Stepping::inorder_entry_free))]
pub fn in_order_step_without_a_try_needs_no_entry()
    ensures same { (s : Setup) (e f : Entry) (p : InorderTimingPlace) → wants_entry p ≡ false
        → timing_inorder_step s e p ≡ timing_inorder_step s f p }
{}

/// What the timing side shows of the run is what the demand run has there: the cycle, the counts,
/// the end, the number of the next instruction to commit, the turn that comes next and the epoch.
#[tactic(auto, using(crate::proofs::Stepping::inorder_place_cycle, crate::proofs::Stepping::inorder_place_stats, crate::proofs::Stepping::inorder_place_end, crate::proofs::Stepping::inorder_place_done, crate::proofs::Stepping::inorder_place_at, crate::proofs::Stepping::inorder_place_epoch))]
pub fn in_order_timing_side_shows_its_run()
    ensures cycle { (s : Setup) (k : ℕ)
        → (inorder_held_at s (inorder_place s k)).inorder.timing.cycle
        ≡ (inorder_place s k).run.demand.machine.cycle }
    ensures stats { (s : Setup) (k : ℕ)
        → timing_stats s (inorder_held_at s (inorder_place s k)).inorder.timing
        ≡ stats_of s (inorder_place s k).run.demand.machine }
    ensures end { (s : Setup) (k : ℕ)
        → (inorder_held_at s (inorder_place s k)).inorder.timing.end
        ≡ (inorder_place s k).run.demand.machine.end }
    ensures done { (s : Setup) (k : ℕ)
        → (inorder_held_at s (inorder_place s k)).inorder.timing.to_commit
        ≡ (inorder_place s k).run.demand.to_commit }
    ensures at { (s : Setup) (k : ℕ)
        → (inorder_held_at s (inorder_place s k)).at ≡ (inorder_place s k).run.at }
    ensures epoch { (s : Setup) (k : ℕ)
        → (inorder_held_at s (inorder_place s k)).epoch ≡ openings (told (seen s k)) }
{}
