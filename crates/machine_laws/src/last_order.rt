//! The end of the list of a run's orders.
#![tactic(auto)]

ghost use Rattle.std.specs.Prelude.{◌≡◌, ℕ, ◌≤◌, ◌<◌, true, false, List, length};
ghost use Rattle.rollback_cmds.specs.declared.order.Order.{Order};
ghost use Rattle.mono_model.specs.declared.setup.Setup.{Setup};
ghost use Rattle.mono_model.specs.Cycle.{mono};
ghost use Rattle.mono_model.specs.Path.{has_stop};
ghost use Rattle.mono_model.specs.Demand.{place, told, step_bound, orders};
ghost use Rattle.mono_model.specs.Split.{is_halted};
ghost use Rattle.machine_laws.specs.Told.{AreTold};
ghost use Rattle.machine_laws.specs.LastOrder.{HasOrder, AreAll};

/// Stop is told by the last step of a run, and behind it the run stands still.
pub fn stop_is_told_last()
    ensures halts { (s : Setup) (k : ℕ) →
        has_stop (told (place s k)) ≡ is_halted (place s k).run.at }
    ensures stopped { (s : Setup) (k : ℕ) → 1 ≤ s.cycles → has_stop (told (place s k)) ≡ true
        → place s k ≡ place s (step_bound s) }
    ensures halted { (s : Setup) (k : ℕ) → 1 ≤ s.cycles → is_halted (place s k).run.at ≡ true
        → place s k ≡ place s (step_bound s) }
    ensures machine { (s : Setup) (k : ℕ) → 1 ≤ s.cycles → is_halted (place s k).run.at ≡ true
        → (place s k).run.demand.machine ≡ mono s s.cycles }
{}

/// Each place in the list has an order, of which the last is a Stop and no other is.
#[tactic(auto, using(crate::proofs::LastOrder::each_order, crate::proofs::LastOrder::more_orders))]
pub fn list_of_orders_ends_in_stop()
    ensures each { (s : Setup) (i : ℕ) → 1 ≤ s.cycles → i < length (orders s) → HasOrder s i }
    ensures more { (s : Setup) (os : List Order) → 1 ≤ s.cycles → AreTold s os → has_stop os ≡ false
        → length os < length (orders s) }
    ensures all { (s : Setup) (os : List Order) → 1 ≤ s.cycles → AreTold s os → has_stop os ≡ true
        → AreAll s os }
{}
