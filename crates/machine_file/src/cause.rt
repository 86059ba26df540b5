//! Why a file gives no parameters, with the key as it stands in the file or the table: only its
//! text takes memory.
ghost use Rattle.std.specs.Prelude.{◌≡◌, IfOk};
ghost use Rattle.machine_file.specs.Table.{key_text};
ghost use Rattle.machine_file.specs.File.{kind_key};
ghost use Rattle.machine_file.specs.Code.{fault_of, held_of, key_of};

use crate::fault::MachineFault;
use crate::held_value::Held;
use crate::table::Key;
use fsim_base::Bytes;
use std::alloc::{AllocError, Global};

/// The first fault of a file.
#[derive(Clone, Copy)]
pub(crate) enum Cause<'a> {
    Unknown(Key<'a>),
    Kind(Key<'a>),
    Range(Key<'a>, i64),
    Power(Key<'a>, i64),
}

/// A value that isn't of its key's kind. The key of the fault is the section's where that has no
/// table.
#[tactic(auto, unfolding(crate::specs::Table::key_text))]
pub(crate) fn kind<'a>(key: &Key<'a>, held: Held<'_>) -> Cause<'a>
    ensures { fault_of result
        ≡ MachineFault.Kind (kind_key (key_of key.now) (held_of held.entry)) }
{
    let inside = match held {
        Held::NoSection => None,
        _ => key.inside,
    };
    Cause::Kind(Key {
        top: key.top,
        inside,
    })
}

/// A key as it is written.
#[tactic(auto, unfolding(crate::specs::Table::key_text))]
fn key_text(alloc: Global, key: &Key<'_>) -> Result<Bytes, AllocError>
    ensures { IfOk result (λ text. text ≡ key_text (key_of key.now)) }
{
    let mut text = key.top.as_bytes().to_vec(alloc)?;
    if let Some(name) = key.inside {
        text.push(b'.')?;
        text.extend_from_slice(name.as_bytes())?;
    }
    Ok(Bytes::new(text))
}

/// The fault, with its key's text.
pub(crate) fn fault(alloc: Global, cause: Cause<'_>) -> Result<MachineFault, AllocError>
    ensures { IfOk result (λ fault. fault ≡ fault_of cause.entry) }
{
    match cause {
        Cause::Unknown(key) => Ok(MachineFault::Unknown(key_text(alloc, &key)?)),
        Cause::Kind(key) => Ok(MachineFault::Kind(key_text(alloc, &key)?)),
        Cause::Range(key, number) => Ok(MachineFault::Range(key_text(alloc, &key)?, number)),
        Cause::Power(key, number) => Ok(MachineFault::Power(key_text(alloc, &key)?, number)),
    }
}
