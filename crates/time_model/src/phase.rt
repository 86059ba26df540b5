ghost use Rattle.std.specs.Prelude.{◌≡◌, true, false};
ghost use Rattle.time_model.specs.Piped.{IsStridden, IsInnerStride};
ghost use Rattle.time_model.specs.Turns.{is_ending};

use timing_core::Orders;

/// A phase of a pipeline's cycle, or its end: a turn that is no try of fetch.
pub trait Phase<P, A> {
    ghost use Rattle.time_model.specs.Piped.{Piped, IsPhase};

    ghost piped: { Piped P A };

    ghost turn: { A };

    /// Whether it is the turn that comes next.
    fn comes(at: A) -> bool
        ensures comes { result ≡ true → at ≡ turn };

    /// Makes it.
    fn make(pipeline: &mut P, next: &mut A) -> Orders
        requires comes { next.old ≡ turn }
        ensures made { IsPhase piped pipeline.old next.old pipeline.new next.new result };
}

/// Makes a phase, if it comes next, and else nothing.
#[inline(always)]
pub fn over<P, A: Copy, H: Phase<P, A>>(pipeline: &mut P, next: &mut A) -> Orders
    ensures strode { IsStridden H.piped pipeline.old next.old pipeline.new next.new result }
    ensures inner { is_ending (H.piped.seen H.turn) ≡ false
        → IsInnerStride H.piped pipeline.old next.old pipeline.new next.new result }
{
    if H::comes(*next) {
        H::make(pipeline, next)
    } else {
        Orders::none()
    }
}
