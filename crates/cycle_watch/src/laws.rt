//! What the timing sides show is what is seen of their machines.
ghost use Rattle.std.specs.Prelude.{◌≡◌, ℕ};
ghost use Rattle.mono_model.specs.declared.setup.Setup.{Setup};
ghost use Rattle.mono_model.specs.Demand.{place};
ghost use Rattle.inorder_machine.specs.Demand.{inorder_place, seen as seen_place};
ghost use Rattle.time_model.specs.Missing.{HoldsPaid};
ghost use Rattle.time_model.specs.OutOfOrder.{TimeSideStandsFor, TimeState, core_piped};
ghost use Rattle.time_model.specs.Standing.{SideStandsFor};
ghost use Rattle.inorder_model.specs.Standing.{InorderState, inorder_piped};
ghost use Rattle.insight_model.specs.OfState.{inorder_sight, sight};
ghost use Rattle.cycle_watch.specs.SeenIn.{inorder_side_sight, time_sight};

/// A timing side that stands at a place of its run, where all is told, and that holds the entry
/// whose miss was counted, shows what is seen of the machine there.
pub fn sides_show_the_machines()
    ensures window { (s : Setup) (k : ℕ) (side : TimeState) → TimeSideStandsFor s k side
        → (place s k).owed ≡ 0 → HoldsPaid core_piped side
        → time_sight side ≡ sight (place s k).run.demand.machine }
    ensures inorder { (s : Setup) (k : ℕ) (side : InorderState) → SideStandsFor inorder_piped s k side
        → (seen_place s k).owed ≡ 0 → HoldsPaid inorder_piped side
        → inorder_side_sight side ≡ inorder_sight (record {
          machine = (inorder_place s k).run.demand.machine;
          memory = (inorder_place s k).run.memory;
        }) }
{}
