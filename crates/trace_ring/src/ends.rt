ghost use Rattle.std.specs.Prelude.{◌≡◌, ◌<◌, [], true, IfOk};
ghost use Rattle.mono_model.specs.Setup.{is_setup};
ghost use Rattle.trace_ring.specs.declared.role.Role.TheVariants.{Pushes, Takes};
ghost use Rattle.trace_ring.specs.Ends.{func_start, time_start};
ghost use Rattle.trace_ring.specs.Line.{view_of, outlet_at, inlet_at};

use crate::count::count_of_none;
use crate::func_end::FuncEnd;
use crate::inlet::Inlet;
use crate::laws::{EntryLaw, OrderLaw};
use crate::line::{Law, Line, View};
use crate::outlet::Outlet;
use crate::time_end::TimeEnd;
use crossbeam_queue::protocol::Split;
use fsim_base::NoMemory;
use mono_model::Setup;
use rollback_cmds::{ORDER_ROOM, Order};
use std::alloc::{AllocError, Global};
use std::marker::{Brand, PhantomData};
use std::sync::Arc;
use trace_entry::Entry;

/// The setup that the passes of a run know. It is picked where they are made, so that no type has a
/// parameter for it.
pub trait Named {
    ghost use Rattle.mono_model.specs.declared.setup.Setup.{Setup as RunSetup};

    ghost setup: { RunSetup };
}

impl Named for Brand {
    ghost use Rattle.trace_ring.specs.NoRun.{no_setup};

    ghost setup = { no_setup };
}

/// What a line's two passes know once the second is given: nothing was handed over yet.
pub struct Opens<K> {
    run: PhantomData<K>,
}

impl<T, K: Named> Split<View<T>> for Opens<K> {
    ghost use Rattle.std.specs.Prelude.{[]};
    ghost use Rattle.trace_ring.specs.declared.role.Role.TheVariants.{Pushes, Takes};
    ghost use Rattle.trace_ring.specs.Line.{view_of};

    ghost left = { λ v. view_of Pushes K.setup [] };

    ghost right = { λ v. view_of Takes K.setup [] };
}

/// The two queues of a run, one of `ring` entries and one of 64 orders, by their two ends. It takes
/// all of their memory here.
pub fn rings(alloc: Global, setup: &Setup) -> Result<(FuncEnd, TimeEnd), NoMemory>
    requires sound { is_setup setup.now ≡ true }
    ensures func { IfOk result (λ ends. ends.0 ≡ func_start setup.now) }
    ensures time { IfOk result (λ ends. ends.1 ≡ time_start setup.now) }
{
    opened::<Brand>(alloc, setup).map_err(|_| NoMemory)
}

fn opened<K: Named>(alloc: Global, setup: &Setup) -> Result<(FuncEnd, TimeEnd), AllocError>
    requires sound { is_setup setup.now ≡ true }
    requires run { K.setup ≡ setup.now }
    ensures func { IfOk result (λ ends. ends.0 ≡ func_start setup.now) }
    ensures time { IfOk result (λ ends. ends.1 ≡ time_start setup.now) }
{
    let (entries_out, entries_in) = line::<K, Entry, EntryLaw>(
        alloc,
        u64::from(setup.ring),
        Entry::BLANK,
    )?;
    let (orders_out, orders_in) = line::<K, Order, OrderLaw>(
        alloc,
        ORDER_ROOM as u64,
        Order::Stop { n: 0 },
    )?;
    let func = FuncEnd {
        entries: entries_out,
        orders: orders_in,
    };
    let time = TimeEnd {
        entries: entries_in,
        orders: orders_out,
    };
    Ok((func, time))
}

/// A line by its two ends. The queue has room for a group for each value that may be under way.
fn line<K: Named, T: Copy + Drop, L: Law<T>>(
    alloc: Global,
    bound: u64,
    blank: T,
) -> Result<(Outlet<T, L>, Inlet<T, L>), AllocError>
    requires bound { 0 < bound }
    ensures pushes { IfOk result (λ ends.
        ends.0 ≡ outlet_at (view_of Pushes K.setup []) [] bound 0) }
    ensures takes { IfOk result (λ ends. ends.1 ≡ inlet_at (view_of Takes K.setup []) 0) }
{
    let (line, mut pushes) = Line::<T, L>::ruled(alloc, bound as usize)?;
    let takes = line.another::<Opens<K>>(&mut pushes);
    let (teller, reader) = count_of_none(alloc)?;
    let line = Arc::new(alloc, line)?;
    let inlet = Inlet::new(Arc::try_clone(&line)?, takes, teller, blank);
    let outlet = Outlet::new(line, pushes, reader, bound, blank);
    Ok((outlet, inlet))
}
