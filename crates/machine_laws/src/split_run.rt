//! The split state behind every list of events.
#![tactic(auto)]

ghost use Rattle.std.specs.Prelude.{◌≡◌, ℕ, ◌≤◌, true, List};
ghost use Rattle.mono_model.specs.declared.setup.Setup.{Setup};
ghost use Rattle.mono_model.specs.Setup.{is_setup};
ghost use Rattle.mono_model.specs.Split.{Split, split_start, Event, event_at, played, run};
ghost use Rattle.mono_model.specs.Split.{rounds_to_boundary, is_halted, is_boundary, to_boundary};
ghost use Rattle.machine_laws.specs.SplitLaw.{IsRun, IsRanged};
ghost use Rattle.machine_laws.specs.Reached.{IsReached};
ghost use Rattle.machine_laws.specs.Stays.{CommittedStays};

/// Functional and timing side together run as the monolithic machine does, in whatever order their
/// events happen.
#[tactic(auto, using(crate::proofs::SplitRun::is_run, crate::proofs::SplitRanges::run_ranged))]
pub fn split_core_runs_as_the_machine()
    ensures run { (s : Setup) (events : List Event) → IsRun s (run s events) }
    ensures ranged { (s : Setup) (events : List Event) → is_setup s ≡ true
        → IsRanged (run s events) }
{}

/// A state that events lead to stays one with each event more, and with the rounds to a boundary.
#[tactic(auto, using(crate::proofs::SplitReached::start_reached, crate::proofs::SplitReached::event_reached, crate::proofs::SplitReached::boundary_reached, crate::proofs::SplitReached::reached_run))]
pub fn split_states_are_reached()
    ensures start { (s : Setup) → IsReached s (split_start s) }
    ensures event { (s : Setup) (e : Event) (x : Split) → IsReached s x
        → IsReached s (event_at s e x) }
    ensures rounds { (s : Setup) (n : ℕ) (x : Split) → IsReached s x
        → IsReached s (rounds_to_boundary s n x) }
    ensures run { (s : Setup) (x : Split) → IsReached s x → IsRun s x }
{}

/// No event lowers the number of the first instruction that isn't committed.
#[tactic(auto, using(crate::proofs::SplitRising::event_rises))]
pub fn committed_number_never_falls()
    ensures rises { (s : Setup) (e : Event) (x : Split) → IsReached s x
        → x.committed_number ≤ (event_at s e x).committed_number }
{}

/// What the functional side has committed stays, from a state that events lead to: after more
/// events, after rounds to a boundary, and at the end of the run.
#[tactic(auto, using(crate::proofs::SplitStaying::events_stay, crate::proofs::SplitStaying::rounds_stay, crate::proofs::SplitStaying::end_stays))]
pub fn what_the_split_core_commits_stays()
    ensures events { (s : Setup) (events : List Event) (x : Split) → IsReached s x
        → CommittedStays s x (played s events x) }
    ensures rounds { (s : Setup) (n : ℕ) (x : Split) → IsReached s x
        → CommittedStays s x (rounds_to_boundary s n x) }
    ensures end { (s : Setup) (x y : Split) → 1 ≤ s.cycles → IsReached s x → IsReached s y
        → is_halted y.place.run.at ≡ true → is_boundary y ≡ true → CommittedStays s x y }
{}

/// Every state that events lead to is brought to a boundary by the rounds that are allowed for it.
#[tactic(auto, using(crate::proofs::SplitArriving::comes_to_boundary))]
pub fn boundaries_are_reached()
    ensures boundary { (s : Setup) (x : Split) → 1 ≤ s.ring → IsReached s x
        → is_boundary (to_boundary s x) ≡ true }
{}
