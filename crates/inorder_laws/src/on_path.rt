//! What the in-order machine has to do with the path of the functional side.
#![tactic(auto)]

ghost use Rattle.std.specs.Prelude.{◌≡◌, ℕ, true};
ghost use Rattle.mono_model.specs.declared.setup.Setup.{Setup};
ghost use Rattle.mono_model.specs.Setup.{is_setup};
ghost use Rattle.machine_laws.specs.Relation.{Related};
ghost use Rattle.machine_laws.specs.Served.{AreServed};
ghost use Rattle.inorder_machine.specs.Demand.{inorder_place};

/// At every place of the demand run the in-order machine is on the path of the functional side,
/// as the monolithic machine is: a record in Execute, Memory or Write has the path's result, and
/// behind one in Memory or Write fetch went where the path goes.
#[tactic(auto, using(crate::proofs::Places::place_related))]
pub fn in_order_machine_is_on_the_path()
    ensures related { (s : Setup) (k : ℕ) → Related s (inorder_place s k).run.demand }
{}

/// No record executes that reads the time and was given none.
#[tactic(auto, using(crate::proofs::Serving::place_served))]
pub fn time_reads_in_order_are_served()
    ensures served { (s : Setup) (k : ℕ) → is_setup s ≡ true
        → AreServed (inorder_place s k).run.demand.machine.window }
{}
