//! The turns of the timing side.
#![tactic(auto)]

ghost use Rattle.std.specs.Prelude.{◌≡◌, ℕ, true};
ghost use Rattle.trace_entry.specs.declared.Entry.{Entry};
ghost use Rattle.mono_model.specs.declared.setup.Setup.{Setup};
ghost use Rattle.mono_model.specs.Path.{entry};
ghost use Rattle.mono_model.specs.Demand.{next, is_try, needed_entry};
ghost use Rattle.machine_laws.specs.Relation.{Related};
ghost use Rattle.inorder_machine.specs.Demand.{InorderRun, inorder_place, seen_at, seen};
ghost use Rattle.inorder_side.specs.Turn.{timing_inorder_turn};
ghost use Rattle.inorder_timing_laws.specs.Seen.{inorder_held, IsInorderTurn};

/// Where the machine is on the path, each turn of the timing side is that of the demand run; a try
/// of fetch needs the entry of the next record.
#[tactic(auto, using(crate::proofs::Turning::inorder_turn_seen))]
pub fn in_order_timing_side_makes_the_turns_of_its_run()
    ensures turn { (s : Setup) (r : InorderRun) (e : Entry)
        → (is_try (seen_at r.at) ≡ true → e ≡ entry s r.demand.orders (next r.demand))
        → Related s r.demand
        → IsInorderTurn s r (timing_inorder_turn s e r.at (inorder_held s r.demand r.memory)) }
{}

/// The entry of the next record has the address where fetch stands.
#[tactic(auto, using(crate::proofs::Stepping::inorder_place_stands))]
pub fn fetch_stands_at_the_entry()
    ensures address { (s : Setup) (k : ℕ)
        → (needed_entry s (seen s k)).addr ≡ (inorder_place s k).run.demand.machine.fetch_addr }
{}
