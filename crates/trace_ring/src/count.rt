//! How many values were handed out: told by the end that takes, read by the end that pushes.

use crate::role::Role;
use atomic_table::{Play, Seat, Split, Table, TableRule};
use std::alloc::{AllocError, Global};
use std::marker::Model;
use std::sync::Arc;

/// What one end knows of the count. No value of it is made.
pub struct CountView {
    pub role: Role,
    /// What was told, or what was read.
    pub count: u64,
}

/// The rule: the word is what was told, and no more was read.
pub struct CountRule;

impl TableRule<(), CountView, ()> for CountRule {
    ghost use Rattle.trace_ring.specs.Count.{Counted, count_fresh};

    ghost holds = { λ _. Counted };

    ghost first = { λ _. count_fresh };
}

/// So many words, and the place of the count among them: it shares no line of the cache with other
/// data.
const WORDS: usize = 17;

const PLACE: usize = 8;

type Shelf = Table<(), CountView, (), CountRule, Global>;

struct Opens;

impl Split<CountView> for Opens {
    ghost use Rattle.trace_ring.specs.declared.role.Role.TheVariants.{Pushes, Takes};
    ghost use Rattle.trace_ring.specs.Count.{count_view};

    ghost left = { λ v. count_view Takes 0 };

    ghost right = { λ v. count_view Pushes 0 };
}

struct Tells;

impl Play<(), CountView> for Tells {
    ghost use Rattle.std.specs.Prelude.{◌≡◌};
    ghost use Rattle.trace_ring.specs.declared.role.Role.TheVariants.{Takes};
    ghost use Rattle.trace_ring.specs.Count.{count_view};

    ghost then = { λ step old told new. new.0 ≡ count_view Takes told };
}

struct Reads;

impl Play<(), CountView> for Reads {
    ghost use Rattle.std.specs.Prelude.{◌≡◌, ◌≤◌};
    ghost use Rattle.trace_ring.specs.declared.role.Role.TheVariants.{Pushes};
    ghost use Rattle.trace_ring.specs.Count.{count_view};

    ghost then = { λ step old found new.
        (new.0 ≡ count_view Pushes found) × (old.0.count ≤ found) };
}

/// Tells how many values were handed out. Contracts see the number told last.
#[derive(Drop)]
pub struct Teller {
    shelf: Arc<Shelf, Global>,
    seat: Seat<(), CountView>,
}

impl Model for Teller {
    ghost use Rattle.std.specs.Prelude.{◌≡◌, ℕ};
    ghost use Rattle.std.specs.Arc.{arc_value};
    ghost use Rattle.trace_ring.specs.declared.role.Role.TheVariants.{Takes};

    ghost Value = { ℕ };

    ghost view = { λ teller. teller.seat.me.0.count };

    ghost invariant = { λ teller.
        (teller.seat.table_id ≡ (arc_value teller.shelf).shared.table_id)
        × ((arc_value teller.shelf).shared.table_id.words ≡ 17)
        × (teller.seat.me.0.role ≡ Takes) };
}

/// Reads how many values were handed out. Contracts see the number read last.
#[derive(Drop)]
pub struct Reader {
    shelf: Arc<Shelf, Global>,
    seat: Seat<(), CountView>,
}

impl Model for Reader {
    ghost use Rattle.std.specs.Prelude.{◌≡◌, ℕ};
    ghost use Rattle.std.specs.Arc.{arc_value};
    ghost use Rattle.trace_ring.specs.declared.role.Role.TheVariants.{Pushes};

    ghost Value = { ℕ };

    ghost view = { λ reader. reader.seat.me.0.count };

    ghost invariant = { λ reader.
        (reader.seat.table_id ≡ (arc_value reader.shelf).shared.table_id)
        × ((arc_value reader.shelf).shared.table_id.words ≡ 17)
        × (reader.seat.me.0.role ≡ Pushes) };
}

ghost use Rattle.std.specs.Prelude.{◌≡◌, ◌≤◌, IfOk};

/// The two ends of a count that is 0. They take their memory here.
pub fn count_of_none(alloc: Global) -> Result<(Teller, Reader), AllocError>
    ensures told { IfOk result (λ ends. ends.0 ≡ 0) }
    ensures read { IfOk result (λ ends. ends.1 ≡ 0) }
{
    let (table, mut tells) = Shelf::of_words(alloc, &[0; WORDS], &())?;
    let reads = table.shared.split_seat::<Opens>(&mut tells);
    let shelf = Arc::new(alloc, table)?;
    let reader = Reader {
        shelf: Arc::try_clone(&shelf)?,
        seat: reads,
    };
    let teller = Teller { shelf, seat: tells };
    Ok((teller, reader))
}

impl Teller {
    /// Tells that so many were handed out, no fewer than before.
    pub fn tell(&mut self, handed: u64)
        requires more { self.old ≤ handed }
        ensures told { self.new ≡ handed }
    {
        self.shelf
            .shared
            .store::<Tells>(&mut self.seat, PLACE, handed);
    }
}

impl Reader {
    /// How many were told at some time in this call: no fewer than at the last one.
    pub fn read(&mut self) -> u64
        ensures read { self.new ≡ result }
        ensures more { self.old ≤ result }
    {
        self.shelf.shared.load::<Reads>(&mut self.seat, PLACE)
    }
}
