//! The table of keys.
ghost use Rattle.std.specs.Prelude.{◌≡◌, map};
ghost use Rattle.machine_file.specs.Table.{first_rows, rows};
ghost use Rattle.machine_file.specs.Code.{row_of};

use crate::table::{FIRST_COUNT, ROW_COUNT, ROWS, Row};

/// All keys.
#[tactic(auto, unfolding(crate::specs::Table::first_rows, crate::specs::Table::second_rows, crate::specs::Table::rows))]
pub(crate) fn all_rows() -> [Row; ROW_COUNT]
    ensures same { map row_of result ≡ rows }
{
    ROWS
}

/// The keys of version 1 among all.
#[tactic(auto, unfolding(crate::specs::Table::first_rows, crate::specs::Table::second_rows, crate::specs::Table::rows))]
pub(crate) fn first_rows(all: &[Row; ROW_COUNT]) -> &[Row]
    requires rows { map row_of all.now ≡ rows }
    ensures { map row_of result.now ≡ first_rows }
{
    &all[..FIRST_COUNT]
}
