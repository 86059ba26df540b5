ghost use Rattle.std.specs.Prelude.{◌≡◌, ◌≢◌, ◌+◌, ◌%◌, ◌^◌, true, false, if◌then◌else◌};
ghost use Rattle.fsim_base.specs.Number.{bits_of};
ghost use Rattle.fsim_base.specs.declared.instruction.Flow.TheVariants.{Plain as PlainFlow};
ghost use Rattle.rv_decode.specs.Decode.{decode_of};
ghost use Rattle.cache_timing.specs.Caches.{CachesState};
ghost use Rattle.cache_timing.specs.CachesStandFor.{CachesStandFor};
ghost use Rattle.cache_timing.specs.declared.params.AllCaches.{AllCaches};
ghost use Rattle.mono_model.specs.Found.{found_word, flow_in};
ghost use Rattle.mono_model.specs.Commit.{branch_count, caches_after};
ghost use Rattle.timing_core.specs.Retiring.{TouchesNothing};

use crate::state::TimingCore;
use cache_timing::Caches;
use fsim_base::{Access, Flow, Spot, bits};
use reorder_buffer::Slot;
use timer_irq::IrqView;

/// The opcodes of branches and jumps but MRET.
const BRANCH: u32 = 0x63;

const JALR: u32 = 0x67;

const JAL: u32 = 0x6f;

/// No opcode below it is that of a branch or a jump.
const HIGH_OPCODES: u32 = 0x40;

/// The word of MRET.
const MRET: u32 = 0x3020_0073;

/// What a predictor may learn from the instruction of a word, which isn't decoded for it. A word
/// that is none is plain.
pub fn flow_of(word: u32) -> Flow
    ensures flow { result ≡ flow_in (found_word word (decode_of word)) }
{
    match bits(word, 6, 0) {
        BRANCH => branch_flow(word),
        JALR => jalr_flow(word),
        JAL => jal_flow(word),
        _ => other_flow(word),
    }
}

/// The same of a word with the opcode of branches: two values of funct3 spell none.
#[tactic(auto, unfolding(rv_decode::specs::Decode::decode_of, rv_decode::specs::Table::table))]
fn branch_flow(word: u32) -> Flow
    requires opcode { bits_of word 6 0 ≡ 0x63 }
    ensures flow { result ≡ flow_in (found_word word (decode_of word)) }
{
    match bits(word, 14, 12) {
        2 | 3 => Flow::Plain,
        _ => Flow::Branch,
    }
}

/// The same of a word with the opcode of JALR: one value of funct3 spells it.
#[tactic(auto, unfolding(rv_decode::specs::Decode::decode_of, rv_decode::specs::Table::table))]
fn jalr_flow(word: u32) -> Flow
    requires opcode { bits_of word 6 0 ≡ 0x67 }
    ensures flow { result ≡ flow_in (found_word word (decode_of word)) }
{
    match bits(word, 14, 12) {
        0 => Flow::Jump,
        _ => Flow::Plain,
    }
}

/// The same of a word with the opcode of JAL: each is one.
#[tactic(auto, unfolding(rv_decode::specs::Decode::decode_of, rv_decode::specs::Table::table))]
fn jal_flow(word: u32) -> Flow
    requires opcode { bits_of word 6 0 ≡ 0x6f }
    ensures flow { result ≡ flow_in (found_word word (decode_of word)) }
{
    Flow::Jump
}

/// The same of any other word: of these MRET alone jumps.
#[tactic(auto, using(crate::proofs::Opcodes::plain_flow, crate::proofs::Opcodes::mret_flow))]
fn other_flow(word: u32) -> Flow
    requires branch { bits_of word 6 0 ≢ 0x63 }
    requires jalr { bits_of word 6 0 ≢ 0x67 }
    requires jal { bits_of word 6 0 ≢ 0x6f }
    ensures flow { result ≡ flow_in (found_word word (decode_of word)) }
{
    if word == MRET {
        Flow::Jump
    } else {
        Flow::Plain
    }
}

/// Whether an instruction counts as a branch: it may go on elsewhere than behind itself.
fn is_counted(flow: Flow) -> bool
    ensures counted { (if result then 1 else 0) ≡ branch_count flow }
{
    match flow {
        Flow::Plain => false,
        Flow::Branch | Flow::Jump => true,
    }
}

/// Counts one more where there is one. No run counts as far as 2^63, so none wraps.
#[inline(always)]
fn count_if(count: &mut u64, there: bool)
    ensures counted { count.new ≡ (if there then (count.old + 1) % 2 ^ 64 else count.old) }
{
    if there {
        *count = count.wrapping_add(1);
    }
}

/// Whether a word is by its opcode neither branch nor jump.
#[inline(always)]
#[tactic(auto, using(crate::proofs::Retiring::low_flow))]
fn has_low_opcode(word: u32) -> bool
    ensures flow { result ≡ true → flow_in (found_word word (decode_of word)) ≡ PlainFlow }
{
    bits(word, 6, 0) < HIGH_OPCODES
}

/// Whether a slot stores.
#[inline(always)]
#[tactic(auto, using(crate::proofs::Retiring::stores_none))]
fn stores(slot: &Slot) -> bool
    ensures touches { result ≡ false → TouchesNothing slot.now }
{
    matches!(slot.access, Access::Store { .. })
}

/// A store to RAM accesses the data cache.
#[inline(always)]
fn store(caches: &mut Caches, slot: &Slot)
    ensures kept { (p : AllCaches) (c : CachesState) → CachesStandFor caches.old p c
        → CachesStandFor caches.new p (caches_after p slot.now.access c) }
{
    if let Access::Store {
        addr,
        spot: Spot::Ram,
        ..
    } = slot.access
    {
        caches.store(addr);
    }
}

impl TimingCore {
    ghost use Rattle.std.specs.Prelude.{ℕ, ◌<◌, Some, drop, length, slice_get};
    ghost use Rattle.reorder_buffer.specs.declared.slot.Slot.{Slot as HeldSlot};
    ghost use Rattle.mono_model.specs.declared.setup.Setup.{Setup};
    ghost use Rattle.timing_side.specs.Timing.{Timing};
    ghost use Rattle.timing_side.specs.Commit.{committed, faulted};
    ghost use Rattle.timing_core.specs.Small.{IsAlmostSmall};
    ghost use Rattle.timing_core.specs.Retiring.{IsQuiet, noted, gone};
    ghost use Rattle.timing_core.specs.CoreStandsFor.{CoreStandsFor};

    /// The oldest slot leaves by its trap.
    pub(crate) fn fault(&mut self, slot: &Slot)
        requires oldest { slice_get self.old.flight.slots 0 ≡ Some slot.now }
        ensures kept { (s : Setup) (t : Timing) → CoreStandsFor s t self.old → IsAlmostSmall t
            → CoreStandsFor s (faulted slot.now (drop 1 t.slots) t) self.new }
    {
        self.flight.leave();
        self.flush(0);
        self.pass(slot);
        self.counts.exceptions = self.counts.exceptions.wrapping_add(1);
    }

    /// The oldest slot, which has no cause, leaves.
    pub(crate) fn retire(&mut self, slot: &Slot)
        requires oldest { slice_get self.old.flight.slots 0 ≡ Some slot.now }
        ensures kept { (s : Setup) (t : Timing) → CoreStandsFor s t self.old → IsAlmostSmall t
            → CoreStandsFor s (committed s slot.now (drop 1 t.slots) t) self.new }
    {
        self.note(slot);
        count_if(&mut self.output, slot.sends);
        self.go(slot);
    }

    /// The same, where it sends nothing and the next may follow. Most only retire then, without a
    /// call.
    #[inline(always)]
    pub(crate) fn retire_quiet(&mut self, slot: &Slot)
        requires oldest { slice_get self.old.flight.slots 0 ≡ Some slot.now }
        requires quiet { IsQuiet slot.now }
        ensures kept { (s : Setup) (t : Timing) → CoreStandsFor s t self.old → IsAlmostSmall t
            → CoreStandsFor s (committed s slot.now (drop 1 t.slots) t) self.new }
    {
        if has_low_opcode(slot.word) && !stores(slot) {
            self.go(slot);
        } else {
            self.retire_noted();
        }
    }

    /// The same, whatever it does besides. It stays a call, which reads the slot where it stands.
    #[inline(never)]
    fn retire_noted(&mut self)
        ensures kept { (s : Setup) (t : Timing) (slot : HeldSlot)
            → slice_get self.old.flight.slots 0 ≡ Some slot → IsQuiet slot → CoreStandsFor s t
            self.old → IsAlmostSmall t →
            CoreStandsFor s (committed s slot (drop 1 t.slots) t) self.new }
    {
        if let Some(slot) = self.flight.oldest() {
            self.note(&slot);
            self.go(&slot);
        }
    }

    /// The predictor learns from a slot, which is counted where it branches or jumps. The data
    /// cache is accessed where it stores.
    #[inline(always)]
    fn note(&mut self, slot: &Slot)
        ensures kept { (s : Setup) (t : Timing) → CoreStandsFor s t self.old
            → t.counts.branches < 2 ^ 63 + 2 ^ 32 →
            CoreStandsFor s (noted s slot.now t) self.new }
        ensures flight { self.new.flight ≡ self.old.flight }
    {
        store(&mut self.caches, slot);
        let flow = flow_of(slot.word);
        self.predictor.train(slot.addr, flow, slot.next);
        count_if(&mut self.counts.branches, is_counted(flow));
    }

    /// The oldest slot, this one, is gone, and one more retired.
    #[inline(always)]
    fn go(&mut self, slot: &Slot)
        requires some { 0 < length self.old.flight.slots }
        ensures kept { (s : Setup) (t : Timing) → CoreStandsFor s t self.old
            → t.retired < 2 ^ 63 + 2 ^ 32 → t.to_commit < 2 ^ 63 + 2 ^ 32 →
            CoreStandsFor s (gone slot.now t) self.new }
    {
        self.flight.leave();
        self.retired = self.retired.wrapping_add(1);
        self.pass(slot);
    }

    /// The number of the next instruction to commit, and the timer interrupt as that meets it.
    fn pass(&mut self, slot: &Slot)
        ensures kept { (s : Setup) (t : Timing) → CoreStandsFor s t self.old
            → t.to_commit < 2 ^ 63 + 2 ^ 32 →
            CoreStandsFor s (record t {
              to_commit = t.to_commit + 1;
              irq_on = slot.now.irq_on;
              cmp = slot.now.cmp;
            }) self.new }
        ensures flight { self.new.flight ≡ self.old.flight }
    {
        self.to_commit = self.to_commit.wrapping_add(1);
        self.irq.on = slot.irq_on;
        self.irq.cmp = slot.cmp;
    }
}
