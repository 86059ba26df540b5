//! A law of the definitions.
ghost use Rattle.std.specs.Prelude.{◌≡◌, ℕ, List, true};
ghost use Rattle.std.specs.List.{list_all};
ghost use Rattle.gdb_packets.specs.Stream.{IsReceived, Stream, is_plain};
ghost use Rattle.gdb_packets.specs.declared.place.Place.TheVariants.{Outside};

/// What is sent is received: a frame makes one whole packet with its content, if that has neither
/// `$` nor `#`.
pub fn frame_is_received()
    ensures received { (s : Stream) (content : List ℕ) → s.place ≡ Outside
        → list_all is_plain content ≡ true → IsReceived s content }
{}
