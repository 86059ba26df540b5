//! The split state behind every list of events.
#![tactic(auto)]

ghost use Rattle.std.specs.Prelude.{◌≡◌, ℕ, ◌≤◌, true, List};
ghost use Rattle.mono_model.specs.declared.setup.Setup.{Setup};
ghost use Rattle.mono_model.specs.Setup.{is_setup};
ghost use Rattle.mono_model.specs.Split.{Event, is_halted, is_boundary};
ghost use Rattle.machine_laws.specs.SplitLaw.{IsRanged};
ghost use Rattle.machine_laws.specs.Stays.{CommittedStays};
ghost use Rattle.inorder_machine.specs.Split.{InorderSplit, inorder_split_start, inorder_event_at};
ghost use Rattle.inorder_machine.specs.Split.{inorder_played};
ghost use Rattle.inorder_machine.specs.Split.{inorder_run};
ghost use Rattle.inorder_laws.specs.SplitLaw.{IsInorderRun, IsInorderReached};
ghost use Rattle.inorder_laws.specs.Rounds.{inorder_rounds_to_boundary, inorder_to_boundary};

/// Where the window has room for a record in each stage, functional and timing side together run
/// as the in-order machine does, in whatever order their events happen.
#[tactic(auto, using(crate::proofs::SplitRun::is_inorder_run, crate::proofs::SplitRanges::inorder_run_ranged))]
pub fn split_core_runs_as_the_in_order_machine()
    ensures run { (s : Setup) (events : List Event) → 4 ≤ s.params.core_window
        → IsInorderRun s (inorder_run s events) }
    ensures ranged { (s : Setup) (events : List Event) → is_setup s ≡ true
        → 4 ≤ s.params.core_window → IsRanged (inorder_run s events).split }
{}

/// A state that events lead to stays one with each event more, and with the rounds to a boundary.
#[tactic(auto, using(crate::proofs::SplitRun::start_inorder_reached, crate::proofs::SplitRun::event_inorder_reached, crate::proofs::Arriving::boundary_inorder_reached, crate::proofs::SplitRun::reached_inorder_run))]
pub fn split_states_in_order_are_reached()
    ensures start { (s : Setup) → IsInorderReached s (inorder_split_start s) }
    ensures event { (s : Setup) (e : Event) (x : InorderSplit) → IsInorderReached s x
        → IsInorderReached s (inorder_event_at s e x) }
    ensures rounds { (s : Setup) (n : ℕ) (x : InorderSplit) → IsInorderReached s x
        → IsInorderReached s (inorder_rounds_to_boundary s n x) }
    ensures run { (s : Setup) (x : InorderSplit) → 4 ≤ s.params.core_window → IsInorderReached s x
        → IsInorderRun s x }
{}

/// No event lowers the number of the first instruction that isn't committed.
#[tactic(auto, using(crate::proofs::SplitRising::inorder_event_rises))]
pub fn committed_number_in_order_never_falls()
    ensures rises { (s : Setup) (e : Event) (x : InorderSplit) → 4 ≤ s.params.core_window
        → IsInorderReached s x
        → x.split.committed_number ≤ (inorder_event_at s e x).split.committed_number }
{}

/// What the functional side has committed stays, from a state that events lead to: after more
/// events, after rounds to a boundary, and at the end of the run.
#[tactic(auto, using(crate::proofs::SplitStaying::events_stay, crate::proofs::SplitStaying::rounds_stay, crate::proofs::SplitStaying::end_stays))]
pub fn what_the_split_core_commits_in_order_stays()
    ensures events { (s : Setup) (events : List Event) (x : InorderSplit) → 4 ≤ s.params.core_window
        → IsInorderReached s x → CommittedStays s x.split (inorder_played s events x).split }
    ensures rounds { (s : Setup) (n : ℕ) (x : InorderSplit) → 4 ≤ s.params.core_window
        → IsInorderReached s x → CommittedStays s x.split (inorder_rounds_to_boundary s n x).split }
    ensures end { (s : Setup) (x y : InorderSplit) → 1 ≤ s.cycles → 4 ≤ s.params.core_window
        → IsInorderReached s x → IsInorderReached s y → is_halted y.split.place.run.at ≡ true
        → is_boundary y.split ≡ true → CommittedStays s x.split y.split }
{}

/// Every state that events lead to is brought to a boundary by the rounds that are allowed for it.
#[tactic(auto, using(crate::proofs::Arriving::comes_to_inorder_boundary))]
pub fn boundaries_in_order_are_reached()
    ensures boundary { (s : Setup) (x : InorderSplit) → 4 ≤ s.params.core_window → 1 ≤ s.ring
        → IsInorderReached s x → is_boundary (inorder_to_boundary s x).split ≡ true }
{}
