//! The turns of the timing side.
#![tactic(auto)]

ghost use Rattle.std.specs.Prelude.{◌≡◌, ℕ, true};
ghost use Rattle.trace_entry.specs.declared.Entry.{Entry};
ghost use Rattle.mono_model.specs.declared.setup.Setup.{Setup};
ghost use Rattle.mono_model.specs.Path.{entry};
ghost use Rattle.mono_model.specs.Demand.{Run, next, is_try, place, needed_entry};
ghost use Rattle.machine_laws.specs.Relation.{Related};
ghost use Rattle.timing_side.specs.Turn.{timing_turn};
ghost use Rattle.timing_laws.specs.Seen.{seen, IsTurn};

/// Where the machine is on the path, each turn of the timing side is that of the demand run; a try
/// of fetch needs the entry of the next record.
#[tactic(auto, using(crate::proofs::Turning::turn_seen))]
pub fn timing_side_makes_the_turns_of_the_demand_run()
    ensures turn { (s : Setup) (r : Run) (e : Entry)
        → (is_try r.at ≡ true → e ≡ entry s r.demand.orders (next r.demand))
        → Related s r.demand → IsTurn s r (timing_turn s e r.at (seen s r.demand)) }
{}

/// The entry of the next record has the address where fetch stands.
#[tactic(auto, using(crate::proofs::Stepping::place_stands))]
pub fn fetch_stands_at_the_entry()
    ensures address { (s : Setup) (k : ℕ)
        → (needed_entry s (place s k)).addr ≡ (place s k).run.demand.machine.fetch_addr }
{}
