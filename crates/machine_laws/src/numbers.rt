//! Numbers of instructions and of orders.
#![tactic(auto)]

ghost use Rattle.std.specs.Prelude.{◌≡◌, ℕ, ◌≤◌, length};
ghost use Rattle.mono_model.specs.declared.setup.Setup.{Setup};
ghost use Rattle.mono_model.specs.Demand.{place, told};
ghost use Rattle.machine_laws.specs.Numbers.{AreNumbered, AreAtCommit, last_commit, IsBounded};

/// The window never has more records than it has room for.
#[tactic(auto, using(crate::proofs::Numbering::window_within))]
pub fn window_stays_within_its_size()
    ensures within { (s : Setup) (k : ℕ)
        → length (place s k).run.demand.machine.window ≤ s.params.core_window }
{}

/// The number of each order lies from that of the last Commit before it to that plus the window.
#[tactic(auto, using(crate::proofs::Numbering::orders_numbered, crate::proofs::Numbering::orders_at_commit, crate::proofs::Staying::done_told))]
pub fn orders_are_numbered_within_the_window()
    ensures numbered { (s : Setup) (k : ℕ) → AreNumbered s (told (place s k)) }
    ensures at_commit { (s : Setup) (k : ℕ) → AreAtCommit (told (place s k)) }
    ensures done { (s : Setup) (k : ℕ)
        → (place s k).run.demand.to_commit ≡ last_commit (told (place s k)) }
{}

/// How far cycle number, instruction numbers and the list of orders go.
#[tactic(auto, using(crate::proofs::Bounds::run_bounded))]
pub fn numbers_of_a_run_are_bounded()
    ensures bounded { (s : Setup) (k : ℕ) → 1 ≤ s.cycles → IsBounded s k (place s k) }
{}
