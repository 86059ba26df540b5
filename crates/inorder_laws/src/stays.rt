//! What is committed.
#![tactic(auto)]

ghost use Rattle.std.specs.Prelude.{◌≡◌, ℕ, ◌≤◌, length};
ghost use Rattle.mono_model.specs.declared.setup.Setup.{Setup};
ghost use Rattle.mono_model.specs.Path.{path};
ghost use Rattle.mono_model.specs.Demand.{told};
ghost use Rattle.machine_laws.specs.Output.{AreInRoom, GrowsTo};
ghost use Rattle.machine_laws.specs.Stays.{StaysBelow, StaysAt};
ghost use Rattle.inorder_machine.specs.Cycle.{inorder};
ghost use Rattle.inorder_machine.specs.Demand.{inorder_place, seen};
ghost use Rattle.inorder_machine.specs.Split.{InorderSplit};
ghost use Rattle.inorder_laws.specs.SplitLaw.{IsInorderReached};

/// Orders told later leave the path below what is committed; and from a place with all orders told
/// on, only interrupts change it at the next instruction to commit, each by its trap.
#[tactic(auto, using(crate::proofs::Staying::stays_below, crate::proofs::Staying::stays_at))]
pub fn committed_in_order_stays()
    ensures below { (s : Setup) (k l : ℕ) → k ≤ l → StaysBelow s (seen s k) (seen s l) }
    ensures at { (s : Setup) (k l : ℕ) → (seen s k).owed ≡ 0 → k ≤ l
        → StaysAt s (seen s k) (seen s l) }
{}

/// The committed output only grows: after fewer cycles it is the beginning of what it is later.
#[tactic(auto, using(crate::proofs::OutputGrows::inorder_grows))]
pub fn output_in_order_only_grows()
    ensures cycles { (s : Setup) (c d : ℕ) → c ≤ d
        → GrowsTo (inorder s c).machine.arch.output (inorder s d).machine.arch.output }
{}

/// What the functional side has committed of the output is the beginning of the run's, whatever is
/// under way between the sides.
#[tactic(auto, using(crate::proofs::SplitGrowing::inorder_split_begins))]
pub fn committed_output_in_order_begins_that_of_the_run()
    ensures split { (s : Setup) (x : InorderSplit) → 1 ≤ s.cycles → 4 ≤ s.params.core_window
        → IsInorderReached s x
        → GrowsTo (path s x.split.obeyed x.split.committed_number).output
        (inorder s s.cycles).machine.arch.output }
{}

/// The committed output under the orders told has room in its limit.
#[tactic(auto, using(crate::proofs::SplitRun::inorder_told_output))]
pub fn output_told_in_order_stays_within_its_limit()
    ensures within { (s : Setup) (k : ℕ) → 4 ≤ s.params.core_window → length
        (path s (told (seen s k)) (inorder_place s k).run.demand.to_commit).output ≤ s.output }
{}

/// What each order commits has room in the output: the path before its number has at most the
/// limit's bytes.
#[tactic(auto, using(crate::proofs::SplitRun::inorder_orders_have_room))]
pub fn what_orders_in_order_commit_has_room()
    ensures room { (s : Setup) (k : ℕ) → 4 ≤ s.params.core_window
        → AreInRoom s (told (seen s k)) }
{}
