ghost use Rattle.std.specs.Prelude.{◌≡◌, ◌<◌, []};
ghost use Rattle.crossbeam_queue.specs.Passes.{IsPassOf};
ghost use Rattle.trace_ring.specs.declared.role.Role.TheVariants.{Pushes};
ghost use Rattle.trace_ring.specs.Line.{IsGroupSize, Allowed, seen, with_group};

use crate::count::Reader;
use crate::counting::one_more;
use crate::group::Group;
use crate::line::{Law, Line, LinePass, PushesGroup};
use std::alloc::Global;
use std::marker::Model;
use std::sync::{Arc, Wait};

/// The end of a line at which values are pushed. No more are under way than its bound: those that
/// wait here, those in the queue, and those that came out of it and weren't handed out yet.
#[derive(Drop)]
pub struct Outlet<T, L: Law<T>> {
    line: Arc<Line<T, L>, Global>,
    pass: LinePass<T>,
    count: Reader,
    /// Values that were pushed and aren't in the queue yet.
    outgoing: Group<T>,
    /// So many go into the queue together.
    size: usize,
    bound: u64,
    pushed: u64,
    /// How many the other end has handed out, as far as is known here.
    known: u64,
}

impl<T, L: Law<T>> Model for Outlet<T, L> {
    ghost use Rattle.std.specs.Prelude.{◌≡◌};
    ghost use Rattle.std.specs.Arc.{arc_value};
    ghost use Rattle.crossbeam_queue.specs.Passes.{IsPassOf};
    ghost use Rattle.trace_ring.specs.Line.{OutletAt, outlet_at, IsOutlet, seen};

    ghost Value = { OutletAt T };

    ghost view = { λ outlet.
        outlet_at (seen outlet.pass) outlet.outgoing outlet.bound outlet.known };

    ghost invariant = { λ outlet. IsPassOf (arc_value outlet.line) outlet.pass
        × (outlet.count ≡ outlet.known)
        × IsOutlet L.allows (seen outlet.pass) outlet.outgoing outlet.size outlet.bound
        outlet.pushed outlet.known };
}

impl<T: Copy, L: Law<T>> Outlet<T, L> {
    ghost use Rattle.std.specs.Prelude.{◌≤◌, ◌+◌, true, false, length, OnOk, OnErr, IfErr};
    ghost use Rattle.std.specs.Arc.{arc_value};
    ghost use Rattle.trace_ring.specs.Line.{outlet_at};
    ghost use Rattle.trace_ring.specs.Line.{has_pushed, has_read, is_flushed};

    /// The end at the start of a run. `blank` fills the room.
    pub fn new(
        line: Arc<Line<T, L>, Global>,
        pass: LinePass<T>,
        count: Reader,
        bound: u64,
        blank: T,
    ) -> Outlet<T, L>
        requires queue { IsPassOf (arc_value line) pass }
        requires start { (seen pass).values ≡ [] }
        requires role { (seen pass).role ≡ Pushes }
        requires count { count ≡ 0 }
        requires bound { 0 < bound }
        ensures opening { result ≡ outlet_at (seen pass) [] bound 0 }
    {
        Outlet {
            line,
            pass,
            count,
            outgoing: Group::new(blank),
            size: group_size(bound),
            bound,
            pushed: 0,
            known: 0,
        }
    }

    /// Reads anew how many values the other end has handed out.
    fn look(&mut self)
        ensures read { self.new ≡ has_read self.old self.new.known }
        ensures more { self.old.known ≤ self.new.known }
    {
        self.known = self.count.read();
    }

    /// Whether the other end has handed out all values that were pushed. Both threads pay for the
    /// look: it takes a line of memory from the other one.
    pub fn is_drained(&mut self) -> bool
        ensures read { self.new ≡ has_read self.old self.new.known }
        ensures drained { result ≡ true → self.new.known ≡ length self.old.values }
    {
        self.look();
        self.known == self.pushed
    }

    /// Whether one value more may be under way. How many were handed out is read anew only if it
    /// seems not so.
    fn has_room(&mut self) -> bool
        ensures read { self.new ≡ has_read self.old self.new.known }
        ensures room { result ≡ true →
            length self.new.values < self.new.known + self.new.bound }
        ensures full { result ≡ false →
            length self.old.values ≡ self.new.known + self.old.bound }
    {
        if self.is_full() {
            self.look();
            return !self.is_full();
        }
        true
    }

    /// Whether as many values as may be were pushed and, as far as is known here, not handed out.
    fn is_full(&self) -> bool
        ensures full { result ≡ true →
            length self.now.values ≡ self.now.known + self.now.bound }
        ensures room { result ≡ false →
            length self.now.values < self.now.known + self.now.bound }
    {
        self.pushed.saturating_sub(self.known) >= self.bound
    }

    /// Hands over a value that the law allows after those pushed before. It waits here until there
    /// are as many as go together, or until a flush. It comes back exactly if so many as may be
    /// under way were pushed and not handed out, and nothing has changed then.
    pub fn push<R: Wait>(&mut self, rt: &R, value: T) -> Result<(), T>
        requires allowed { L.allows self.old.setup self.old.values value }
        ensures pushed { OnOk result
            (self.new ≡ has_pushed self.old value self.new.known self.new.waiting) }
        ensures within { length self.new.values ≤ self.new.known + self.new.bound }
        ensures back { IfErr result (λ back. back ≡ value) }
        ensures same { OnErr result (self.new ≡ has_read self.old self.new.known) }
        ensures full { OnErr result (length self.old.values ≡ self.new.known + self.old.bound) }
    {
        if !self.has_room() {
            return Err(value);
        }
        self.put(rt, value);
        Ok(())
    }

    fn put<R: Wait>(&mut self, rt: &R, value: T)
        requires allowed { L.allows self.old.setup self.old.values value }
        requires room { length self.old.values < self.old.known + self.old.bound }
        ensures pushed { self.new ≡ has_pushed self.old value self.old.known self.new.waiting }
        ensures within { length self.new.values ≤ self.new.known + self.new.bound }
    {
        self.outgoing.push(value);
        self.pushed = one_more(rt, self.pushed);
        if self.outgoing.len() >= self.size {
            send(rt, &self.line, &mut self.pass, &mut self.outgoing);
        }
    }

    /// Puts the values that wait into the queue.
    pub fn flush<R: Wait>(&mut self, rt: &R)
        ensures flushed { self.new ≡ is_flushed self.old }
    {
        if self.outgoing.len() > 0 {
            send(rt, &self.line, &mut self.pass, &mut self.outgoing);
        }
    }
}

/// Puts the values that wait into the queue, as one group. It has room for as many groups as values
/// may be under way, and each has at least one: so it takes the group at the first try.
fn send<T: Copy, L: Law<T>, R: Wait>(
    rt: &R,
    line: &Line<T, L>,
    pass: &mut LinePass<T>,
    outgoing: &mut Group<T>,
)
    requires queue { IsPassOf line.now pass.old }
    requires role { (seen pass.old).role ≡ Pushes }
    requires allowed { Allowed (L.allows (seen pass.old).setup) (seen pass.old).values outgoing.old }
    ensures queue { IsPassOf line.now pass.new }
    ensures sent { seen pass.new ≡ with_group (seen pass.old) outgoing.old }
    ensures none { outgoing.new ≡ [] }
{
    let mut group = outgoing.take();
    for _ in rt.forever() {
        match line.try_push_as::<PushesGroup>(pass, group) {
            Ok(()) => return,
            Err(back) => group = back,
        }
    }
    unreachable!()
}

/// How many values go together, where so many may be under way: no more than a quarter of them, so
/// that both ends have something to do.
fn group_size(bound: u64) -> usize
    requires bound { 0 < bound }
    ensures size { IsGroupSize bound result }
{
    if bound >= 16 {
        4
    } else if bound >= 8 {
        2
    } else {
        1
    }
}
