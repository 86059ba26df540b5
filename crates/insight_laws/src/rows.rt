//! What the rows of a profile add up to.
#![tactic(auto)]

ghost use Rattle.std.specs.Prelude.{◌≡◌, List, sum_by};
ghost use Rattle.insight_model.specs.Profile.{Event, Column, amount_in, own_events, rows_of};

/// In each column the rows add up to all that is counted there: each event has one row.
pub fn rows_add_up()
    ensures rows { (column : Column) (all : List Event)
        → sum_by (λ row. amount_in column (own_events row all)) (rows_of all)
        ≡ amount_in column all }
{}
