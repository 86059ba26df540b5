//! Names that no key has.
ghost use Rattle.std.specs.Prelude.{◌≡◌, map, option_map};
ghost use Rattle.std.specs.List.{list_any};
ghost use Rattle.toml.specs.Data.{as_table};
ghost use Rattle.toml.specs.View.{table_view, view};
ghost use Rattle.machine_file.specs.File.{has_inside, has_section, has_top, unknown_in};
ghost use Rattle.machine_file.specs.File.{unknown_inside, unknown_key};
ghost use Rattle.machine_file.specs.Code.{key_of, row_of};

use crate::table::{Key, Row};
use toml::{Table, Value};

fn has_top(row: &Row, top: &str) -> bool
    ensures { result ≡ has_top top.now (row_of row.now) }
{
    row.key.top == top
}

fn has_section(row: &Row, section: &str) -> bool
    ensures { result ≡ has_section section.now (row_of row.now) }
{
    row.key.top == section && row.key.inside.is_some()
}

fn has_inside(row: &Row, section: &str, name: &str) -> bool
    ensures { result ≡ has_inside section.now name.now (row_of row.now) }
{
    match row.key.inside {
        Some(inside) => row.key.top == section && inside == name,
        None => false,
    }
}

fn is_top(rows: &[Row], top: &str) -> bool
    ensures { result ≡ list_any (has_top top.now) (map row_of rows.now) }
{
    for row in rows {
        if has_top(row, top) {
            return true;
        }
    }
    false
}

fn is_section(rows: &[Row], section: &str) -> bool
    ensures { result ≡ list_any (has_section section.now) (map row_of rows.now) }
{
    for row in rows {
        if has_section(row, section) {
            return true;
        }
    }
    false
}

fn is_inside(rows: &[Row], section: &str, name: &str) -> bool
    ensures { result ≡ list_any (has_inside section.now name.now) (map row_of rows.now) }
{
    for row in rows {
        if has_inside(row, section, name) {
            return true;
        }
    }
    false
}

/// The first name inside a section that isn't known.
fn unknown_inside<'a>(rows: &[Row], section: &'a str, names: &'a Table) -> Option<Key<'a>>
    ensures { option_map key_of result ≡ unknown_inside (map row_of rows.now) section.now
        (table_view names.now) }
{
    for (name, _) in names.iter() {
        if !is_inside(rows, section, name.as_str()) {
            return Some(Key {
                top: section,
                inside: Some(name.as_str()),
            });
        }
    }
    None
}

/// The first unknown name below a known top-level name.
fn unknown_below<'a>(rows: &[Row], top: &'a str, value: &'a Value) -> Option<Key<'a>>
    ensures { option_map key_of result ≡ unknown_in (map row_of rows.now) top.now
        (as_table (view value.now)) }
{
    match value.as_table() {
        Some(names) if is_section(rows, top) => unknown_inside(rows, top, names),
        _ => None,
    }
}

/// The first name that isn't known: names in the order of their bytes, each with those inside
/// before the next.
pub(crate) fn unknown_key<'a>(rows: &[Row], file: &'a Table) -> Option<Key<'a>>
    ensures { option_map key_of result ≡ unknown_key (map row_of rows.now) (table_view file.now) }
{
    for (top, value) in file.iter() {
        if !is_top(rows, top.as_str()) {
            return Some(Key {
                top: top.as_str(),
                inside: None,
            });
        }
        if let Some(key) = unknown_below(rows, top.as_str(), value) {
            return Some(key);
        }
    }
    None
}
