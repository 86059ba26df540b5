//! What the columns of a count add up to.
ghost use Rattle.std.specs.Prelude.{◌≡◌};
ghost use Rattle.mono_model.specs.declared.setup.Setup.{Setup};
ghost use Rattle.mono_model.specs.Alone.{alone, alone_stats};
ghost use Rattle.insight_model.specs.Profile.{retired, trapped};
ghost use Rattle.instruction_count.specs.Counted.{column_total};

/// The rows of a count add up to what the run alone reports: the instructions that retired, and
/// those that trapped. It does nothing: its clauses are the law.
pub fn columns_add_up()
    ensures retired { (s : Setup)
        → column_total retired s ≡ (alone_stats (alone s s.cycles)).instructions }
    ensures exceptions { (s : Setup)
        → column_total trapped s ≡ (alone_stats (alone s s.cycles)).exceptions }
{}
