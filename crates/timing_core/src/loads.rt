ghost use Rattle.std.specs.Prelude.{◌≡◌};
ghost use Rattle.cache_timing.specs.Caches.{CachesState};
ghost use Rattle.cache_timing.specs.CachesStandFor.{CachesStandFor};
ghost use Rattle.mono_model.specs.declared.setup.Setup.{Setup};
ghost use Rattle.mono_model.specs.Setup.{caches_params};
ghost use Rattle.mono_model.specs.Issue.{cached};

use cache_timing::Caches;
use fsim_base::{Access, Spot};
use reorder_buffer::Slot;

/// A slot that begins: a load of RAM without a cause accesses the data cache, on wrong paths too.
/// The result is the cycles that this adds.
#[inline(always)]
pub(crate) fn load_cycles(caches: &mut Caches, slot: &Slot) -> u32
    ensures cycles { (s : Setup) (state : CachesState)
        → CachesStandFor caches.old (caches_params s.params) state →
        result ≡ (cached s slot.now.cause slot.now.access state).cycles }
    ensures state { (s : Setup) (state : CachesState)
        → CachesStandFor caches.old (caches_params s.params) state →
        CachesStandFor caches.new (caches_params s.params)
        (cached s slot.now.cause slot.now.access state).state }
{
    match slot.access {
        Access::Load {
            addr,
            spot: Spot::Ram,
            ..
        } if slot.cause.is_none() => caches.load(addr),
        _ => 0,
    }
}
