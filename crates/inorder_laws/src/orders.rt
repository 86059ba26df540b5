//! Which order a step tells.
#![tactic(auto)]

ghost use Rattle.std.specs.Prelude.{◌≡◌, ℕ, suc, IfSome};
ghost use Rattle.mono_model.specs.declared.setup.Setup.{Setup};
ghost use Rattle.mono_model.specs.Demand.{next, told};
ghost use Rattle.mono_model.specs.Split.{told_by};
ghost use Rattle.machine_laws.specs.Telling.{with_order, OpensAt};
ghost use Rattle.inorder_machine.specs.Demand.{seen};

/// A step tells one order at most; one that opens an epoch, but Stop, has the number of the next
/// record to fetch.
#[tactic(auto, using(crate::proofs::Telling::step_told, crate::proofs::Telling::step_opens))]
pub fn step_in_order_tells_one_order_at_most()
    ensures told { (s : Setup) (k : ℕ) → told (seen s (suc k))
        ≡ with_order (told_by (seen s k) (seen s (suc k))) (told (seen s k)) }
    ensures opens { (s : Setup) (k : ℕ) → IfSome (told_by (seen s k) (seen s (suc k)))
        (OpensAt (next (seen s (suc k)).run.demand)) }
{}
