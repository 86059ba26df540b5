//! What is committed.
#![tactic(auto)]

ghost use Rattle.std.specs.Prelude.{◌≡◌, ℕ, ◌≤◌, List, length};
ghost use Rattle.rollback_cmds.specs.declared.order.Order.{Order};
ghost use Rattle.mono_model.specs.declared.setup.Setup.{Setup};
ghost use Rattle.mono_model.specs.Path.{path};
ghost use Rattle.mono_model.specs.Alone.{alone};
ghost use Rattle.mono_model.specs.Cycle.{mono};
ghost use Rattle.mono_model.specs.Demand.{place, told};
ghost use Rattle.mono_model.specs.Split.{Split};
ghost use Rattle.machine_laws.specs.Numbers.{last_commit};
ghost use Rattle.machine_laws.specs.Output.{AreInRoom, GrowsTo};
ghost use Rattle.machine_laws.specs.Reached.{IsReached};
ghost use Rattle.machine_laws.specs.Stays.{StaysBelow, StaysAt};
ghost use Rattle.machine_laws.specs.Told.{AreTold};

/// Orders told later leave the path below what is committed; and from a place with all orders told
/// on, only interrupts change it at the next instruction to commit, each by its trap.
#[tactic(auto, using(crate::proofs::Staying::stays_below, crate::proofs::Staying::stays_at))]
pub fn committed_stays()
    ensures below { (s : Setup) (k l : ℕ) → k ≤ l → StaysBelow s (place s k) (place s l) }
    ensures at { (s : Setup) (k l : ℕ) → (place s k).owed ≡ 0 → k ≤ l
        → StaysAt s (place s k) (place s l) }
{}

/// The committed output only grows: after fewer steps of the run alone, and after fewer cycles of
/// the machine, it is the beginning of what it is later.
#[tactic(auto, using(crate::proofs::OutputGrows::alone_grows, crate::proofs::OutputGrows::mono_grows))]
pub fn output_only_grows()
    ensures steps { (s : Setup) (n m : ℕ) → n ≤ m
        → GrowsTo (alone s n).arch.output (alone s m).arch.output }
    ensures cycles { (s : Setup) (c d : ℕ) → c ≤ d
        → GrowsTo (mono s c).arch.output (mono s d).arch.output }
{}

/// What the functional side has committed of the output is the beginning of the run's, whatever is
/// under way between the sides: of the split machine, and of a side that obeys the orders told.
#[tactic(auto, using(crate::proofs::SplitGrowing::split_begins, crate::proofs::SplitGrowing::orders_begin_output))]
pub fn committed_output_begins_that_of_the_run()
    ensures split { (s : Setup) (x : Split) → 1 ≤ s.cycles → IsReached s x
        → GrowsTo (path s x.obeyed x.committed_number).output (mono s s.cycles).arch.output }
    ensures told { (s : Setup) (os : List Order) (n : ℕ) → 1 ≤ s.cycles → AreTold s os
        → n ≤ last_commit os → GrowsTo (path s os n).output (mono s s.cycles).arch.output }
{}

/// The committed output has room in its limit.
#[tactic(auto, using(crate::proofs::OutputRoom::output_within))]
pub fn output_stays_within_its_limit()
    ensures within { (s : Setup) (k : ℕ)
        → length (place s k).run.demand.machine.arch.output ≤ s.output }
{}

/// So has the committed output under the orders told.
#[tactic(auto, using(crate::proofs::SplitOutput::told_output))]
pub fn output_told_stays_within_its_limit()
    ensures within { (s : Setup) (k : ℕ) →
        length (path s (told (place s k)) (place s k).run.demand.to_commit).output ≤ s.output }
{}

/// What each order commits has room in the output: the path before its number has at most the
/// limit's bytes.
#[tactic(auto, using(crate::proofs::SplitOutput::orders_have_room))]
pub fn what_orders_commit_has_room()
    ensures room { (s : Setup) (k : ℕ) → AreInRoom s (told (place s k)) }
{}
