//! The orders that are told, step by step.
#![tactic(auto)]

ghost use Rattle.std.specs.Prelude.{◌≡◌, ℕ, suc, ◌≤◌, true, Some, IfSome, List, ◌++◌, length};
ghost use Rattle.std.specs.Prelude.{reverse};
ghost use Rattle.rollback_cmds.specs.declared.order.Order.{Order};
ghost use Rattle.rollback_cmds.specs.Order.{opens_epoch_of};
ghost use Rattle.mono_model.specs.declared.setup.Setup.{Setup};
ghost use Rattle.mono_model.specs.Path.{entry, openings};
ghost use Rattle.mono_model.specs.Demand.{place, told, next, number_of, orders, order, first};
ghost use Rattle.mono_model.specs.Demand.{entry_in};
ghost use Rattle.mono_model.specs.Split.{told_by};
ghost use Rattle.machine_laws.specs.Telling.{with_order, OpensAt};

/// A step tells one order at most; one that opens an epoch, but Stop, has the number of the next
/// record to fetch.
#[tactic(auto, using(crate::proofs::Telling::step_told, crate::proofs::Telling::step_opens))]
pub fn step_tells_one_order_at_most()
    ensures told { (s : Setup) (k : ℕ)
        → told (place s (suc k))
        ≡ with_order (told_by (place s k) (place s (suc k))) (told (place s k)) }
    ensures opens { (s : Setup) (k : ℕ)
        → IfSome (told_by (place s k) (place s (suc k)))
        (OpensAt (next (place s (suc k)).run.demand)) }
{}

/// The orders told up to a place are the first ones of the whole run, and a step tells the next one
/// of these.
#[tactic(auto, using(crate::proofs::Whole::orders_begin, crate::proofs::Whole::order_is))]
pub fn orders_told_begin_those_of_the_run()
    ensures begins { (s : Setup) (k : ℕ) → 1 ≤ s.cycles
        → (rest : List Order) × (orders s ≡ reverse (told (place s k)) ++ rest) }
    ensures in_order { (s : Setup) (k : ℕ) → 1 ≤ s.cycles →
        IfSome (told_by (place s k) (place s (suc k)))
        (λ o. order s (length (told (place s k))) ≡ Some o) }
{}

/// An epoch is the number of openings told: its entries are those under the orders told, and it
/// begins at the number of the order that opens it.
#[tactic(auto, using(crate::proofs::Epochs::entry_of_epoch, crate::proofs::Epochs::first_is))]
pub fn epochs_go_by_the_orders_told()
    ensures entries { (s : Setup) (k n : ℕ) → 1 ≤ s.cycles
        → entry_in s (openings (told (place s k))) n ≡ entry s (told (place s k)) n }
    ensures numbers { (s : Setup) (k : ℕ) → 1 ≤ s.cycles
        → IfSome (told_by (place s k) (place s (suc k)))
        (λ o. opens_epoch_of o ≡ true → first s (openings (told (place s (suc k)))) ≡ number_of o) }
{}
