//! Numbers of orders, and the output.
#![tactic(auto)]

ghost use Rattle.std.specs.Prelude.{◌≡◌, ℕ, ◌≤◌, length};
ghost use Rattle.mono_model.specs.declared.setup.Setup.{Setup};
ghost use Rattle.mono_model.specs.Demand.{told};
ghost use Rattle.machine_laws.specs.Numbers.{AreNumbered, AreAtCommit, last_commit};
ghost use Rattle.inorder_machine.specs.Demand.{inorder_place, seen};
ghost use Rattle.inorder_laws.specs.Numbers.{IsInorderBounded};

/// Where the window has room for a record in each stage, the number of each order lies from that of
/// the last Commit before it to that plus the window.
#[tactic(auto, using(crate::proofs::Numbering::orders_numbered, crate::proofs::Numbering::orders_at_commit, crate::proofs::Staying::done_told))]
pub fn orders_in_order_are_numbered_within_the_window()
    ensures numbered { (s : Setup) (k : ℕ) → 4 ≤ s.params.core_window
        → AreNumbered s (told (seen s k)) }
    ensures at_commit { (s : Setup) (k : ℕ) → 4 ≤ s.params.core_window
        → AreAtCommit (told (seen s k)) }
    ensures done { (s : Setup) (k : ℕ) → 4 ≤ s.params.core_window
        → (inorder_place s k).run.demand.to_commit ≡ last_commit (told (seen s k)) }
{}

/// The committed output has room in its limit.
#[tactic(auto, using(crate::proofs::OutputRoom::output_within))]
pub fn output_in_order_stays_within_its_limit()
    ensures within { (s : Setup) (k : ℕ)
        → length (inorder_place s k).run.demand.machine.arch.output ≤ s.output }
{}

/// How far cycle number, instruction numbers and the list of orders go.
#[tactic(auto, using(crate::proofs::Bounds::run_bounded))]
pub fn numbers_of_a_run_in_order_are_bounded()
    ensures bounded { (s : Setup) (k : ℕ) → 1 ≤ s.cycles → 4 ≤ s.params.core_window
        → IsInorderBounded s k (inorder_place s k) }
{}
