//! What the definitions promise of every access and every address. Each function here does nothing:
//! its contract is a law, and so it is proved.
ghost use Rattle.std.specs.Prelude.{◌≡◌, ℕ, ◌+◌, ◌*◌, ◌/◌, ◌%◌, ◌^◌, ◌<◌, List, [], ◌∷◌, length};
ghost use Rattle.fsim_base.specs.declared.access.Width.{Width};
ghost use Rattle.device_bus.specs.declared.kind.DeviceKind.{DeviceKind};
ghost use Rattle.device_bus.specs.declared.undo.DevUndo.{DevUndo};
ghost use Rattle.device_bus.specs.Range.{IsInRange};
ghost use Rattle.device_bus.specs.Device.{DeviceAccess, loading, dev, state_after, received};
ghost use Rattle.device_bus.specs.Device.{compare_stored, ChangesAtMostOne};
ghost use Rattle.device_bus.specs.Undo.{Undoes};
ghost use Rattle.device_bus.specs.Bus.{Devices, state_of, devices_after, devices_undone};

/// An access changes at most one of a device's numbers, and not how many there are.
pub fn access_changes_at_most_one_number()
    ensures one { (kind : DeviceKind) (input numbers : List ℕ) (access : DeviceAccess)
        → ChangesAtMostOne numbers (dev kind input numbers access).numbers }
{}

/// An access that is taken back leaves the three devices as they were before it.
pub fn undone_access_leaves_nothing()
    ensures restored { (devices : Devices) (kind : DeviceKind) (access : DeviceAccess)
        (undo : DevUndo)
        → Undoes kind undo (state_of devices kind) (state_after kind (state_of devices kind) access)
        → devices_undone (devices_after devices kind access) kind undo ≡ devices }
{}

/// No address lies in the ranges of two devices, and each range lies below 0x2000_0000, where no
/// RAM is.
pub fn ranges_are_apart()
    ensures apart { (a b : DeviceKind) (addr : ℕ) → IsInRange a addr → IsInRange b addr → a ≡ b }
    ensures low { (kind : DeviceKind) (addr : ℕ) → IsInRange kind addr → addr < 0x2000_0000 }
{}

/// While the divisor latch is off, as many loads as the input has bytes give the input, in order.
pub fn console_hands_over_the_input()
    ensures in_order { (input : List ℕ) (line_control : ℕ)
        → line_control / 128 % 2 ≡ 0 → received (length input) input (line_control ∷ 0 ∷ [])
        ≡ input }
{}

/// The two halves of the time are the time, and mtimecmp's halves are what was stored there last.
#[tactic(auto, unfolding(crate::specs::Device::dev))]
pub fn timer_shows_its_halves()
    ensures time { (numbers : List ℕ) (time : ℕ)
        → (dev DeviceKind.Timer [] numbers (loading 0xbff8 Width.Word time)).value
        + 2 ^ 32 * (dev DeviceKind.Timer [] numbers (loading 0xbffc Width.Word time)).value
        ≡ time }
    ensures compare { (numbers : List ℕ) (low high : ℕ)
        → length numbers ≡ 2 → compare_stored low high numbers ≡ low ∷ high ∷ [] }
    ensures compare_shown { (low high time : ℕ)
        → ((dev DeviceKind.Timer [] (low ∷ high ∷ []) (loading 0x4000 Width.Word time)).value ≡ low)
        × ((dev DeviceKind.Timer [] (low ∷ high ∷ []) (loading 0x4004 Width.Word time)).value
        ≡ high) }
{}
