ghost use Rattle.std.specs.Prelude.{◌≡◌, ◌-◌, ◌<◌, ◌^◌, true, List};
ghost use Rattle.rv_decode.specs.Decode.{decode_of};
ghost use Rattle.mono_model.specs.Found.{found_word, is_fence_i, is_fence_i_insn};
ghost use Rattle.mono_model.specs.Demand.{commit_order};
ghost use Rattle.rollback_cmds.specs.declared.order.Order.{Order as SpecOrder};
ghost use Rattle.timing_side.specs.Commit.{ending_orders};
ghost use Rattle.timing_core.specs.Orders.{and_then};
ghost use Rattle.timing_core.specs.Leaving.{ending_in, ended_by};
ghost use Rattle.timing_core.specs.Retiring.{IsQuiet};

use crate::orders::Orders;
use crate::state::TimingCore;
use fsim_base::bits;
use mono_model::{End, end_of};
use reorder_buffer::{Slot, SlotState};
use rollback_cmds::Order;
use rv_decode::{Insn, decode};

/// The opcode of FENCE and FENCE.I.
const FENCE: u32 = 0x0f;

/// What the oldest instruction does in this phase.
#[derive(Clone, Copy, Debug, PartialEq, Eq)]
pub enum Leaving {
    /// There is none, or it isn't done.
    Stays,
    /// The output has no room for its byte: the run ends before it.
    Full,
    /// It leaves, and the next may follow.
    Leaves,
    /// It leaves by a trap to the handler at this address, and all younger slots are flushed.
    Faults(u32),
    /// A FENCE.I leaves, and all younger slots are flushed.
    Syncs,
    /// It leaves and ends the run.
    Ends,
}

/// How the phase ended.
#[derive(Clone, Copy, Debug, PartialEq, Eq)]
pub enum Ending {
    /// Without a flush.
    Plain,
    /// By a trap to the handler at this address.
    Trap(u32),
    /// By a FENCE.I.
    Sync,
}

/// How many slots left, and how the phase ended.
#[derive(Clone, Copy, Debug, PartialEq, Eq)]
pub struct Committed {
    pub left: u32,
    pub ending: Ending,
}

fn is_fence_i_insn(insn: Insn) -> bool
    ensures fence { result ≡ is_fence_i_insn insn }
{
    match insn {
        Insn::Fence { fetch, .. } => fetch,
        _ => false,
    }
}

/// Whether a word is a FENCE.I. Only words with its opcode are decoded for it.
#[tactic(auto, using(crate::proofs::Opcodes::no_fence))]
fn is_fence_i(word: u32) -> bool
    ensures fence { result ≡ is_fence_i (found_word word (decode_of word)) }
{
    bits(word, 6, 0) == FENCE && is_decoded_fence_i(word)
}

/// The same, by decoding.
fn is_decoded_fence_i(word: u32) -> bool
    ensures fence { result ≡ is_fence_i (found_word word (decode_of word)) }
{
    match decode(word) {
        Some(insn) => is_fence_i_insn(insn),
        None => false,
    }
}

/// How the phase ends behind a slot, of which so many left before; None where the next may follow.
fn ended_by(leaving: Leaving, left: u32) -> Option<Committed>
    requires room { left < 2 ^ 32 - 1 }
    ensures ended { result ≡ ended_by leaving left }
{
    let (left, ending) = match leaving {
        Leaving::Leaves => return None,
        Leaving::Stays | Leaving::Full => (left, Ending::Plain),
        Leaving::Faults(handler) => (left + 1, Ending::Trap(handler)),
        Leaving::Syncs => (left + 1, Ending::Sync),
        Leaving::Ends => (left + 1, Ending::Plain),
    };
    Some(Committed { left, ending })
}

/// The order that tells of the slots that left, if some did.
fn commit_order(left: u32, done: u64) -> Option<Order>
    ensures order { (os : List SpecOrder) → and_then result os ≡ commit_order left done os }
{
    if left == 0 {
        return None;
    }
    Some(Order::Commit { n: done })
}

/// The order that the ending asks for.
fn ending_order(ending: Ending, done: u64) -> Option<Order>
    ensures order { (os : List SpecOrder)
        → and_then result os ≡ ending_orders (ending_in ending) done os }
{
    match ending {
        Ending::Plain => None,
        Ending::Trap(addr) => Some(Order::Set { n: done, addr }),
        Ending::Sync => Some(Order::Sync { n: done }),
    }
}

/// Whether a slot has no cause and sends nothing, and the next may follow. No word is decoded for
/// it.
#[inline(always)]
#[tactic(auto, using(crate::proofs::Opcodes::no_fence, crate::proofs::Retiring::not_some))]
fn is_quiet(slot: &Slot) -> bool
    ensures quiet { result ≡ true → IsQuiet slot.now }
{
    bits(slot.word, 6, 0) != FENCE && slot.cause.is_none() && !slot.sends && slot.halt.is_none()
}

impl TimingCore {
    ghost use Rattle.std.specs.Prelude.{ℕ, ◌+◌, drop, slice_get, Some, IfSome, IfNone};
    ghost use Rattle.reorder_buffer.specs.declared.slot.Slot.{Slot as HeldSlot};
    ghost use Rattle.reorder_buffer.specs.declared.slot.SlotState.TheVariants.{Done};
    ghost use Rattle.mono_model.specs.declared.setup.Setup.{Setup};
    ghost use Rattle.timing_side.specs.Slots.{found_in};
    ghost use Rattle.timing_side.specs.Timing.{Timing};
    ghost use Rattle.timing_side.specs.Commit.{has_no_room, leaving_by, leaving_done, stays};
    ghost use Rattle.timing_side.specs.Commit.{leaving, commits, committed_phase, timing_commit};
    ghost use Rattle.timing_core.specs.Small.{IsAlmostSmall, IsSmall};
    ghost use Rattle.timing_core.specs.Orders.{orders_in};
    ghost use Rattle.timing_core.specs.Leaving.{kind_of, behind_of};
    ghost use Rattle.timing_core.specs.CoreStandsFor.{CoreStandsFor};

    /// The second phase of a cycle: the oldest slots, once done, leave in order, at most so many as
    /// the machine commits in a cycle.
    #[inline(always)]
    pub fn commit(&mut self) -> Orders
        ensures kept { (s : Setup) (t : Timing) → CoreStandsFor s t self.old → IsSmall t
            → CoreStandsFor s (timing_commit s t).timing self.new }
        ensures orders { (s : Setup) (t : Timing) → CoreStandsFor s t self.old → IsSmall t
            → orders_in result ≡ (timing_commit s t).orders }
    {
        self.commit_at_most(self.params.core_commit)
    }

    /// The oldest slots, once done, leave in order, at most so many.
    #[inline(always)]
    pub fn commit_at_most(&mut self, most: u32) -> Orders
        ensures kept { (s : Setup) (t : Timing) → CoreStandsFor s t self.old → IsSmall t
            → CoreStandsFor s (committed_phase (commits s most 0 t)).timing self.new }
        ensures orders { (s : Setup) (t : Timing) → CoreStandsFor s t self.old → IsSmall t
            → orders_in result ≡ (committed_phase (commits s most 0 t)).orders }
    {
        let committed = self.leave_in_order(most);
        let to_commit = self.to_commit;
        Orders::in_turn(
            commit_order(committed.left, to_commit),
            ending_order(committed.ending, to_commit),
        )
    }

    /// The oldest slot, once done, leaves, and no other. No loop is made for it.
    #[inline(always)]
    pub fn commit_one(&mut self) -> Orders
        ensures kept { (s : Setup) (t : Timing) → CoreStandsFor s t self.old → IsSmall t
            → CoreStandsFor s (committed_phase (commits s 1 0 t)).timing self.new }
        ensures orders { (s : Setup) (t : Timing) → CoreStandsFor s t self.old → IsSmall t
            → orders_in result ≡ (committed_phase (commits s 1 0 t)).orders }
    {
        let committed = self.leave_once();
        let to_commit = self.to_commit;
        Orders::in_turn(
            commit_order(committed.left, to_commit),
            ending_order(committed.ending, to_commit),
        )
    }

    /// The oldest slot leaves, and no other.
    #[inline(always)]
    fn leave_once(&mut self) -> Committed
        ensures kept { (s : Setup) (t : Timing) → CoreStandsFor s t self.old → IsSmall t
            → CoreStandsFor s (commits s 1 0 t).timing self.new }
        ensures left { (s : Setup) (t : Timing) → CoreStandsFor s t self.old → IsSmall t
            → result.left ≡ (commits s 1 0 t).left }
        ensures ending { (s : Setup) (t : Timing) → CoreStandsFor s t self.old → IsSmall t
            → ending_in result.ending ≡ (commits s 1 0 t).ending }
    {
        let leaving = self.leave();
        match ended_by(leaving, 0) {
            Some(committed) => committed,
            None => Committed {
                left: 1,
                ending: Ending::Plain,
            },
        }
    }

    /// The oldest slots leave, at most so many.
    #[inline(always)]
    fn leave_in_order(&mut self, most: u32) -> Committed
        ensures kept { (s : Setup) (t : Timing) → CoreStandsFor s t self.old → IsSmall t
            → CoreStandsFor s (commits s most 0 t).timing self.new }
        ensures left { (s : Setup) (t : Timing) → CoreStandsFor s t self.old → IsSmall t
            → result.left ≡ (commits s most 0 t).left }
        ensures ending { (s : Setup) (t : Timing) → CoreStandsFor s t self.old → IsSmall t
            → ending_in result.ending ≡ (commits s most 0 t).ending }
    {
        for left in 0..most {
            let leaving = self.leave();
            if let Some(committed) = ended_by(leaving, left) {
                return committed;
            }
        }
        Committed {
            left: most,
            ending: Ending::Plain,
        }
    }

    /// The oldest slot does what it does in this phase. Most cycles end it at a slot that isn't
    /// done, and most slots that leave only retire: neither takes a call.
    #[inline(always)]
    fn leave(&mut self) -> Leaving
        ensures kept { (s : Setup) (t : Timing) → CoreStandsFor s t self.old → IsAlmostSmall t
            → CoreStandsFor s (behind_of t (leaving s t)) self.new }
        ensures kind { (s : Setup) (t : Timing) → CoreStandsFor s t self.old → IsAlmostSmall t
            → result ≡ kind_of (leaving s t) }
    {
        match self.oldest_done() {
            Some(slot) if is_quiet(&slot) => {
                self.retire_quiet(&slot);
                Leaving::Leaves
            }
            Some(_) => self.leave_done(),
            None => Leaving::Stays,
        }
    }

    /// The oldest slot, where it is done.
    #[inline(always)]
    fn oldest_done(&self) -> Option<Slot>
        ensures oldest { IfSome result (λ slot. slice_get self.now.flight.slots 0 ≡ Some slot) }
        ensures done { IfSome result (λ slot. slot.state ≡ Done) }
        ensures stays { IfNone result ((s : Setup) (t : Timing) → t.slots ≡ self.now.flight.slots →
            leaving s t ≡ stays) }
    {
        let slot = self.flight.oldest()?;
        match slot.state {
            SlotState::Done => Some(slot),
            _ => None,
        }
    }

    /// The oldest slot, once done, does what it does in this phase. It stays a call, which reads
    /// the slot where it stands.
    #[inline(never)]
    fn leave_done(&mut self) -> Leaving
        ensures kept { (s : Setup) (t : Timing) (slot : HeldSlot)
            → slice_get self.old.flight.slots 0 ≡ Some slot → CoreStandsFor s t self.old
            → IsAlmostSmall t →
            CoreStandsFor s
            (behind_of t (leaving_done s slot (drop 1 t.slots) slot.cause t)) self.new }
        ensures kind { (s : Setup) (t : Timing) (slot : HeldSlot)
            → slice_get self.old.flight.slots 0 ≡ Some slot → CoreStandsFor s t self.old
            → IsAlmostSmall t →
            result ≡ kind_of (leaving_done s slot (drop 1 t.slots) slot.cause t) }
    {
        let Some(slot) = self.flight.oldest() else {
            return Leaving::Stays;
        };
        if slot.cause.is_some() {
            self.fault(&slot);
            return Leaving::Faults(slot.next);
        }
        if self.has_no_room(&slot) {
            self.end = End::OutputFull;
            return Leaving::Full;
        }
        self.retire(&slot);
        self.follow(&slot)
    }

    /// Whether the output has no room for what the slot sends.
    fn has_no_room(&self, slot: &Slot) -> bool
        ensures room { (s : Setup) (t : Timing) → CoreStandsFor s t self.now
            → result ≡ has_no_room s slot.now t }
    {
        slot.sends && self.output >= u64::from(self.output_limit)
    }

    /// What the phase does behind a slot that retired.
    fn follow(&mut self, slot: &Slot) -> Leaving
        ensures kept { (s : Setup) (t : Timing) → CoreStandsFor s t self.old
            → t.counts.squashed < 2 ^ 63 + 2 ^ 32 →
            CoreStandsFor s
            (behind_of t (leaving_by (is_fence_i (found_in slot.now)) slot.now.halt t)) self.new }
        ensures kind { (s : Setup) (t : Timing) → CoreStandsFor s t self.old
            → t.counts.squashed < 2 ^ 63 + 2 ^ 32 →
            result ≡ kind_of (leaving_by (is_fence_i (found_in slot.now)) slot.now.halt t) }
    {
        if let Some(halt) = slot.halt {
            self.end = end_of(halt);
            return Leaving::Ends;
        }
        if is_fence_i(slot.word) {
            self.flush(0);
            return Leaving::Syncs;
        }
        Leaving::Leaves
    }
}
