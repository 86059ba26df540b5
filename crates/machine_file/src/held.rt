ghost use Rattle.std.specs.Prelude.{◌≡◌, option_map};
ghost use Rattle.toml.specs.Data.{as_table, get_member};
ghost use Rattle.toml.specs.View.{table_view, view};
ghost use Rattle.machine_file.specs.File.{held, held_inside, is_second};
ghost use Rattle.machine_file.specs.Code.{held_of, key_of};

use crate::held_value::Held;
use crate::table::Key;
use toml::{Table, Value};

#[tactic(auto, using(toml::proofs::Views::table_get))]
fn member<'a>(table: &'a Table, name: &str) -> Option<&'a Value>
    ensures { option_map (λ v. view v.now) result ≡ get_member name.now (table_view table.now) }
{
    table.get(name)
}

/// Whether the file is of version 2.
pub(crate) fn is_second(file: &Table) -> bool
    ensures { result ≡ is_second (table_view file.now) }
{
    match member(file, "version") {
        Some(version) => version.as_integer() == Some(2),
        None => false,
    }
}

/// What a section holds for a name inside it.
fn held_inside<'a>(section: &'a Value, name: &str) -> Held<'a>
    ensures { held_of result ≡ held_inside name.now (as_table (view section.now)) }
{
    let Some(names) = section.as_table() else {
        return Held::NoSection;
    };
    match member(names, name) {
        Some(value) => Held::Value(value),
        None => Held::LeftOut,
    }
}

/// What a file holds for a key.
#[tactic(auto, unfolding(crate::specs::File::held))]
pub(crate) fn held<'a>(file: &'a Table, key: &Key<'_>) -> Held<'a>
    ensures { held_of result ≡ held (table_view file.now) (key_of key.now) }
{
    let Some(value) = member(file, key.top) else {
        return Held::LeftOut;
    };
    match key.inside {
        Some(name) => held_inside(value, name),
        None => Held::Value(value),
    }
}
