use crate::count::Teller;
use crate::counting::one_more;
use crate::group::Group;
use crate::line::{Law, Line, LinePass, TakesGroup};
use std::alloc::Global;
use std::marker::Model;
use std::sync::{Arc, Wait};

/// The end of a line at which values are taken. It tells the other end how many it has handed out.
#[derive(Drop)]
pub struct Inlet<T, L: Law<T>> {
    line: Arc<Line<T, L>, Global>,
    pass: LinePass<T>,
    count: Teller,
    /// The group that came out of the queue last, and how many of its values were handed out.
    arrived: Group<T>,
    handed: usize,
    taken: u64,
}

impl<T, L: Law<T>> Model for Inlet<T, L> {
    ghost use Rattle.std.specs.Prelude.{◌≡◌};
    ghost use Rattle.std.specs.Arc.{arc_value};
    ghost use Rattle.crossbeam_queue.specs.Passes.{IsPassOf};
    ghost use Rattle.trace_ring.specs.Line.{InletAt, inlet_at, IsInlet, seen};

    ghost Value = { InletAt T };

    ghost view = { λ inlet. inlet_at (seen inlet.pass) inlet.taken };

    ghost invariant = { λ inlet. IsPassOf (arc_value inlet.line) inlet.pass
        × (inlet.count ≡ inlet.taken)
        × IsInlet L.allows (seen inlet.pass) inlet.arrived inlet.handed inlet.taken };
}

impl<T: Copy, L: Law<T>> Inlet<T, L> {
    ghost use Rattle.std.specs.Prelude.{◌≡◌, [], IfSome, IfNone};
    ghost use Rattle.std.specs.Arc.{arc_value};
    ghost use Rattle.crossbeam_queue.specs.Passes.{IsPassOf};
    ghost use Rattle.trace_ring.specs.declared.role.Role.TheVariants.{Takes};
    ghost use Rattle.trace_ring.specs.Line.{inlet_at, has_taken, seen};

    /// The end at the start of a run. `blank` fills the room.
    pub fn new(
        line: Arc<Line<T, L>, Global>,
        pass: LinePass<T>,
        count: Teller,
        blank: T,
    ) -> Inlet<T, L>
        requires queue { IsPassOf (arc_value line) pass }
        requires start { (seen pass).values ≡ [] }
        requires role { (seen pass).role ≡ Takes }
        requires count { count ≡ 0 }
        ensures opening { result ≡ inlet_at (seen pass) 0 }
    {
        Inlet {
            line,
            pass,
            count,
            arrived: Group::new(blank),
            handed: 0,
            taken: 0,
        }
    }

    /// The next value; None if there is none now, which no clause says.
    pub fn next<R: Wait>(&mut self, rt: &R) -> Option<T>
        ensures allowed { IfSome result (λ x. L.allows self.old.setup self.old.values x) }
        ensures taken { IfSome result (λ x. self.new ≡ has_taken self.old x) }
        ensures same { IfNone result (self.new ≡ self.old) }
    {
        self.fill();
        let value = self.arrived.get(self.handed)?;
        self.handed += 1;
        self.taken = one_more(rt, self.taken);
        self.count.tell(self.taken);
        Some(value)
    }

    /// Takes a group out of the queue, if there is one, once the last one was handed out.
    fn fill(&mut self)
        ensures same { self.new ≡ self.old }
    {
        if self.handed < self.arrived.len() {
            return;
        }
        if let Some(group) = self.line.try_pop_as::<TakesGroup<L>>(&mut self.pass) {
            self.arrived = group;
            self.handed = 0;
        }
    }
}
