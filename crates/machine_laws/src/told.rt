//! From the list of a run's orders back to the steps that tell them.
#![tactic(auto)]

ghost use Rattle.std.specs.Prelude.{◌≡◌, ℕ, ◌≤◌, true, Some, List, [], length};
ghost use Rattle.rollback_cmds.specs.declared.order.Order.{Order};
ghost use Rattle.trace_entry.specs.declared.Entry.{Entry};
ghost use Rattle.mono_model.specs.declared.setup.Setup.{Setup};
ghost use Rattle.mono_model.specs.Setup.{is_setup};
ghost use Rattle.mono_model.specs.Path.{openings};
ghost use Rattle.mono_model.specs.Demand.{place, told, next, needs_entry, needed_entry};
ghost use Rattle.mono_model.specs.Demand.{order, entry_in};
ghost use Rattle.machine_laws.specs.Numbers.{AreAtCommit};
ghost use Rattle.machine_laws.specs.Told.{AreTold, IsToldBehind, IsToldAt, HasName};
ghost use Rattle.machine_laws.specs.NextOrder.{AreSmall, MayObeyNext};

/// Each order of the run is told by a step, behind as many orders as its place in the list says.
pub fn each_order_is_told_by_a_step()
    ensures at { (s : Setup) (i : ℕ) (o : Order) → order s i ≡ Some o → IsToldAt s i o }
    ensures behind { (s : Setup) (os : List Order) (o : Order) → AreTold s os
        → order s (length os) ≡ Some o → IsToldBehind s os o }
{}

/// What a functional side knows of its numbers and entries, where it obeyed the orders told.
#[tactic(auto, using(crate::proofs::OrderSteps::none_told, crate::proofs::OrderSteps::told_named))]
pub fn orders_obeyed_are_those_told()
    ensures none { (s : Setup) → AreTold s [] }
    ensures at_commit { (s : Setup) (os : List Order) → AreTold s os → AreAtCommit os }
    ensures small { (s : Setup) (os : List Order) → is_setup s ≡ true → AreTold s os
        → AreSmall s os }
    ensures named { (s : Setup) (os : List Order) (n : ℕ) → 1 ≤ s.cycles → AreTold s os
        → HasName s os n }
{}

/// The next order of the run may be obeyed by a functional side that has obeyed those before it.
pub fn next_order_may_be_obeyed()
    ensures next { (s : Setup) (os : List Order) (o : Order) → 1 ≤ s.cycles → AreTold s os
        → order s (length os) ≡ Some o → MayObeyNext s os o }
{}

/// The entry that a try needs is the one that the epoch and the number of the next record name.
#[tactic(auto, using(crate::proofs::OrderSteps::needed_is))]
pub fn needed_entry_goes_by_epoch_and_number()
    ensures needed { (s : Setup) (k : ℕ) (e : Entry) → 1 ≤ s.cycles → needs_entry (place s k) ≡ true
        → e ≡ entry_in s e.epoch e.number → e.epoch ≡ openings (told (place s k))
        → e.number ≡ next (place s k).run.demand → e ≡ needed_entry s (place s k) }
{}
