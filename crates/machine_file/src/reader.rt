ghost use Rattle.std.specs.Prelude.{◌≡◌, ◌≢◌, ◌↔◌, map, None, Some, Err, IfOk, IfErr, IfSome};
ghost use Rattle.std.specs.Prelude.{IsErr, true};
ghost use Rattle.mono_model.specs.Setup.{are_params};
ghost use Rattle.toml.specs.Errors.{IsBlank, IsMemory};
ghost use Rattle.toml.specs.View.{table_view};
ghost use Rattle.machine_file.specs.Table.{rows};
ghost use Rattle.machine_file.specs.File.{document, file_fault, IsMachine, known_rows};
ghost use Rattle.machine_file.specs.File.{machine_fault, params_by, value_at};
ghost use Rattle.machine_file.specs.Code.{fault_of, row_of};

use crate::cause::{Cause, fault};
use crate::fault::MachineFault;
use crate::held::is_second;
use crate::names::unknown_key;
use crate::numbers::numbers;
use crate::params::params;
use crate::rows::{all_rows, first_rows};
use crate::table::{ROW_COUNT, Row};
use mono_model::Params;
use std::alloc::{AllocError, Global};
use toml::Table;
use toml::de::Error;

/// What an error of TOML says of the bytes.
fn refusal(error: &Error) -> MachineFault
    ensures memory { (result ≡ MachineFault.Memory) ↔ IsMemory error.now }
    ensures other { ¬ IsMemory error.now → result ≡ MachineFault.NotToml }
{
    if error.is_memory() {
        MachineFault::Memory
    } else {
        MachineFault::NotToml
    }
}

/// The table that the bytes write.
#[tactic(auto, unfolding(crate::specs::File::document))]
fn document(alloc: Global, bytes: &[u8]) -> Result<Table, MachineFault>
    ensures ok { IfOk result (λ file. document bytes.now ≡ Some (table_view file)) }
    ensures cause { IfErr result (λ fault. fault ≢ MachineFault.Memory
        → fault ≡ MachineFault.NotToml) }
    ensures fault { IfErr result (λ fault. fault ≢ MachineFault.Memory
        → document bytes.now ≡ None) }
    ensures memory { result ≡ Err MachineFault.Memory → ¬ IsBlank bytes.now }
{
    match toml::table_from_slice(alloc, bytes) {
        Ok(file) => Ok(file),
        Err(error) => Err(refusal(&error)),
    }
}

/// The rows of the names that may stand in a file.
fn known_rows<'a>(all: &'a [Row; ROW_COUNT], file: &Table) -> &'a [Row]
    requires rows { map row_of all.now ≡ rows }
    ensures { map row_of result.now ≡ known_rows (table_view file.now) }
{
    if is_second(file) {
        all
    } else {
        first_rows(all)
    }
}

/// The parameters of a file.
#[tactic(auto, using(crate::proofs::Ranged::ranges), unfolding(crate::specs::File::file_fault))]
fn read_file<'a>(file: &'a Table) -> Result<Params, Cause<'a>>
    ensures params { IfOk result (λ params. params ≡ params_by (value_at (table_view file.now))) }
    ensures clear { IfOk result (λ _. file_fault (table_view file.now) ≡ None) }
    ensures in_range { IfOk result (λ params. are_params params ≡ true) }
    ensures fault { IfErr result (λ cause.
        file_fault (table_view file.now) ≡ Some (fault_of cause)) }
{
    let rows = all_rows();
    if let Some(key) = unknown_key(known_rows(&rows, file), file) {
        return Err(Cause::Unknown(key));
    }
    Ok(params(numbers(&rows, file)?))
}

/// The fault, or that of memory where the text of its key found none.
fn told(alloc: Global, cause: Cause<'_>) -> MachineFault
    ensures { result ≢ MachineFault.Memory → result ≡ fault_of cause.entry }
{
    match fault(alloc, cause) {
        Ok(fault) => fault,
        Err(AllocError) => MachineFault::Memory,
    }
}

/// The parameters that a machine file gives, or the first fault that applies. The names that the
/// table of keys lacks come first, in the order of their bytes, and then the faults of the keys in
/// the order of the table. A key that is left out has its default, which is tested too. A key's
/// kind is tested before its range, and its range before the power of two.
///
/// Takes time that grows with the length of the file, and memory for its table.
///
/// # Errors
///
/// The cases of `MachineFault`. That of memory comes only where memory was wanted and not found:
/// where TOML says so, and for the text of a fault's key. A file of white space and comments takes
/// none.
#[tactic(auto, using(crate::proofs::Blanks::blank_clear), unfolding(crate::specs::File::machine_fault, crate::specs::File::params_of))]
pub fn read(alloc: Global, bytes: &[u8]) -> Result<Params, MachineFault>
    ensures params { IfOk result (λ params. IsMachine bytes.now params) }
    ensures in_range { IfOk result (λ params. are_params params ≡ true) }
    ensures fault { IfErr result (λ fault. fault ≢ MachineFault.Memory
        → machine_fault bytes.now ≡ Some fault) }
    ensures refused { IfSome (machine_fault bytes.now) (λ _. IsErr result) }
    ensures memory { result ≡ Err MachineFault.Memory → ¬ IsBlank bytes.now }
{
    let file = document(alloc, bytes)?;
    match read_file(&file) {
        Ok(params) => Ok(params),
        Err(cause) => Err(told(alloc, cause)),
    }
}
