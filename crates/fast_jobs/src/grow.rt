//! Lists that grow, or want memory.
ghost use Rattle.std.specs.Prelude.{◌≡◌, ◌++◌, ◌∷◌, [], OnOk};

use fsim_base::NoMemory;

/// Adds to a list.
pub fn push<T: Drop>(list: &mut Vec<T>, item: T) -> Result<(), NoMemory>
    ensures pushed { OnOk result (list.new.items ≡ list.old.items ++ item ∷ []) }
{
    match list.push(item) {
        Ok(()) => Ok(()),
        Err(_) => Err(NoMemory),
    }
}

/// Moves the items of a list to the end of another.
pub fn append<T: Drop>(list: &mut Vec<T>, more: &mut Vec<T>) -> Result<(), NoMemory>
    ensures appended { OnOk result (list.new.items ≡ list.old.items ++ more.old.items) }
    ensures moved { OnOk result (more.new.items ≡ []) }
{
    match list.append(more) {
        Ok(()) => Ok(()),
        Err(_) => Err(NoMemory),
    }
}
