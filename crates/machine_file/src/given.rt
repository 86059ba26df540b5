//! The number that a value stands for.
ghost use Rattle.std.specs.Prelude.{◌≡◌, ◌≤◌, length, map, option_and_then};
ghost use Rattle.toml.specs.Data.{as_str};
ghost use Rattle.toml.specs.View.{view};
ghost use Rattle.machine_file.specs.File.{given, given_by, number_of, place_of};
ghost use Rattle.machine_file.specs.Code.{held_of, row_of, wanted_of};

use crate::held_value::Held;
use crate::table::{Row, Wanted};
use toml::Value;

/// The place of a text.
fn place(texts: &[&str], text: &str) -> Option<i64>
    requires few { length texts.now ≤ 3 }
    ensures { result ≡ place_of (map (λ t. t.now) texts.now) text.now }
{
    for (i, candidate) in texts.iter().enumerate() {
        if *candidate == text {
            return Some(i as i64);
        }
    }
    None
}

/// The place of the text that a value is.
fn place_in(texts: &[&str], value: &Value) -> Option<i64>
    requires few { length texts.now ≤ 3 }
    ensures { result ≡ option_and_then (place_of (map (λ t. t.now) texts.now))
        (as_str (view value.now)) }
{
    match value.as_str() {
        Some(text) => place(texts, text),
        None => None,
    }
}

/// The number that a value stands for.
fn number(wanted: &Wanted, value: &Value) -> Option<i64>
    ensures { result ≡ number_of (wanted_of wanted.now) (view value.now) }
{
    match wanted {
        Wanted::TextOfTwo(a, b) => place_in(&[*a, *b], value),
        Wanted::TextOfThree(a, b, c) => place_in(&[*a, *b, *c], value),
        _ => value.as_integer(),
    }
}

/// The number that a row's key has.
pub(crate) fn given(row: &Row, held: Held<'_>) -> Option<i64>
    ensures { result ≡ given_by (row_of row.now) (held_of held.entry) }
{
    match held {
        Held::LeftOut => Some(i64::from(row.default)),
        Held::Value(value) => number(&row.wanted, value),
        Held::NoSection => None,
    }
}
