//! The numbers that a file gives for the keys, tested row by row.
ghost use Rattle.std.specs.Prelude.{◌≡◌, IfOk, IfErr, map, Some, None};
ghost use Rattle.toml.specs.View.{table_view};
ghost use Rattle.machine_file.specs.Table.{rows};
ghost use Rattle.machine_file.specs.File.{first_failing, natural, number_fault, ram_base};
ghost use Rattle.machine_file.specs.File.{row_fault, value_of, whole};
ghost use Rattle.machine_file.specs.Code.{fault_of, row_of};

use crate::cause::{Cause, kind};
use crate::given::given;
use crate::held::held;
use crate::range::{in_range, is_power};
use crate::table::{RAM_BASE, ROW_COUNT, Row};
use toml::Table;

/// The number, where it has no fault.
#[tactic(auto, unfolding(crate::specs::File::number_fault))]
fn checked(row: &Row, base: u64, number: i64) -> Result<u32, Cause<'static>>
    ensures same { IfOk result (λ n. n ≡ natural number) }
    ensures clear { IfOk result (λ _. number_fault base (row_of row.now) number ≡ None) }
    ensures fault { IfErr result (λ cause.
        number_fault base (row_of row.now) number ≡ Some (fault_of cause)) }
{
    let Some(n) = in_range(base, &row.wanted, number) else {
        return Err(Cause::Range(row.key, number));
    };
    if !is_power(&row.wanted, n) {
        return Err(Cause::Power(row.key, number));
    }
    Ok(n)
}

/// The number of a row's key.
#[tactic(auto, unfolding(crate::specs::File::given, crate::specs::File::row_fault))]
fn number(row: &Row, base: u64, file: &Table) -> Result<u32, Cause<'static>>
    requires base { base ≡ ram_base (table_view file.now) }
    ensures value { IfOk result (λ n. n ≡ value_of (table_view file.now) (row_of row.now)) }
    ensures clear { IfOk result (λ _. row_fault (table_view file.now) (row_of row.now) ≡ None) }
    ensures fault { IfErr result (λ cause.
        row_fault (table_view file.now) (row_of row.now) ≡ Some (fault_of cause)) }
{
    let found = held(file, &row.key);
    match given(row, found) {
        Some(number) => checked(row, base, number),
        None => Err(kind(&row.key, found)),
    }
}

/// A number as it is, and 0 where it is none or below 0.
fn whole(number: Option<i64>) -> u64
    ensures { result ≡ whole number }
{
    match number {
        Some(number) => u64::try_from(number).unwrap_or(0),
        None => 0,
    }
}

/// The number of the base of RAM, in range or not.
#[tactic(auto, using(crate::proofs::Base::base_number), unfolding(crate::specs::File::given))]
fn ram_base(file: &Table) -> u64
    ensures { result ≡ ram_base (table_view file.now) }
{
    whole(given(&RAM_BASE, held(file, &RAM_BASE.key)))
}

/// The numbers of the keys in the order of their rows.
pub(crate) fn numbers(
    rows: &[Row; ROW_COUNT],
    file: &Table,
) -> Result<[u32; ROW_COUNT], Cause<'static>>
    ensures values { IfOk result (λ ns. ns
        ≡ map (value_of (table_view file.now)) (map row_of rows.now)) }
    ensures clear { IfOk result (λ _. first_failing (table_view file.now) (map row_of rows.now)
        ≡ None) }
    ensures fault { IfErr result (λ cause.
        first_failing (table_view file.now) (map row_of rows.now) ≡ Some (fault_of cause)) }
{
    let base = ram_base(file);
    let mut numbers = [0; ROW_COUNT];
    for i in 0..ROW_COUNT {
        let n = number(&rows[i], base, file)?;
        numbers[i] = n;
    }
    Ok(numbers)
}
