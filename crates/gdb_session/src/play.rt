//! What the packets do, and what answers them.
ghost use Rattle.std.specs.Prelude.{◌≡◌, ◌≤◌, ◌++◌, ℕ, drop};
ghost use Rattle.mono_model.specs.declared.setup.Setup.{Setup as RunSetup};
ghost use Rattle.fsim_ports.specs.Sink.{Puts};
ghost use Rattle.gdb_packets.specs.Frame.{frame};
ghost use Rattle.gdb_model.specs.Answer.{end_text, shown_text, stop_reply};
ghost use Rattle.gdb_model.specs.Session.{Session as GdbSession};
ghost use Rattle.gdb_model.specs.Talk.{go_back, go_forth, played, reply_if};
ghost use Rattle.gdb_session.specs.Standing.{SessionStandsFor, range_in, reason_in};

use crate::description::description_reply;
use crate::lines::end_line;
use crate::memory::{has_memory, memory_reply};
use crate::monitor::play_command;
use crate::range::Range;
use crate::registers::{has_register, register_reply, registers_reply};
use crate::runs::{Reason, back, forth};
use crate::session::Session;
use crate::told::{put_content, put_reply, put_shown};
use device_bus::Device;
use fsim_ports::{Failed, Sink};
use gdb_packets::{Packet, Reply};
use report_text::ends_open;

/// What a packet may hold, and what GDB may ask for.
const FEATURES: &[u8] =
    b"PacketSize=1000;QStartNoAckMode+;qXfer:features:read+;ReverseStep+;ReverseContinue+";

/// Does what a packet asks for, and answers it. Where the sink fails, it is done all the same.
pub fn play<D: Device, K: Sink>(
    session: &mut Session<D>,
    packet: Packet<'_>,
    sink: &mut K,
) -> Result<(), Failed>
    ensures stands { (s : RunSetup) (history : ℕ) (held : GdbSession)
        → SessionStandsFor s history held session.old
        → SessionStandsFor s history (played history s packet.entry held).session session.new }
    ensures count { K.faults sink.old ≤ K.faults sink.new }
    ensures written { (s : RunSetup) (history : ℕ) (held : GdbSession)
        → SessionStandsFor s history held session.old
        → Puts (played history s packet.entry held).text (K.faults sink.old) (K.faults sink.new)
        (K.written sink.old) (K.written sink.new) result }
{
    match packet {
        Packet::Reason => put_content(b"T05", sink),
        Packet::Registers => put_reply(registers_reply(&session.debugger), sink),
        Packet::Register(number) => put_reply(register_reply(&session.debugger, number), sink),
        Packet::WriteRegister(number, bytes) => {
            put_answer(has_register(&session.debugger, number, &bytes), sink)
        }
        Packet::Memory { address, size } => {
            put_reply(memory_reply(&mut session.debugger, address, size), sink)
        }
        Packet::WriteMemory {
            address,
            size,
            bytes,
        } => put_answer(
            has_memory(&mut session.debugger, address, size, &bytes),
            sink,
        ),
        Packet::Actions => put_content(b"vCont;c;C;s;S;r", sink),
        Packet::Continue => go_forth(session, Range::All, sink),
        Packet::Step => go_forth(session, Range::None, sink),
        Packet::StepRange { start, end } => go_forth(session, Range::Within { start, end }, sink),
        Packet::ContinueBack => go_back(session, Range::All, sink),
        Packet::StepBack => go_back(session, Range::None, sink),
        Packet::SetPoint(point) => put_answer(session.stops.points.set(point), sink),
        Packet::ClearPoint(point) => {
            session.stops.points.clear(point);
            put_answer(true, sink)
        }
        Packet::Detach => put_answer(true, sink),
        Packet::Kill => Ok(()),
        Packet::Supported => put_content(FEATURES, sink),
        Packet::NoAcks => {
            session.quiet = true;
            put_answer(true, sink)
        }
        Packet::Description { place, size } => put_reply(description_reply(place, size), sink),
        Packet::Monitor(bytes) => play_command(session, &bytes, sink),
        Packet::Unknown => put_content(b"", sink),
        Packet::Malformed => put_answer(false, sink),
    }
}

/// Writes `OK`, or that it can't be.
fn put_answer<K: Sink>(holds: bool, sink: &mut K) -> Result<(), Failed>
    ensures count { K.faults sink.old ≤ K.faults sink.new }
    ensures written { Puts (frame (reply_if holds)) (K.faults sink.old) (K.faults sink.new)
        (K.written sink.old) (K.written sink.new) result }
{
    if holds {
        put_content(b"OK", sink)
    } else {
        put_content(b"E01", sink)
    }
}

/// Runs forwards, and tells the output that is new and why the run stops.
fn go_forth<D: Device, K: Sink>(
    session: &mut Session<D>,
    range: Range,
    sink: &mut K,
) -> Result<(), Failed>
    ensures stands { (s : RunSetup) (history : ℕ) (held : GdbSession)
        → SessionStandsFor s history held session.old
        → SessionStandsFor s history (go_forth history s (range_in range) held).session
        session.new }
    ensures count { K.faults sink.old ≤ K.faults sink.new }
    ensures written { (s : RunSetup) (history : ℕ) (held : GdbSession)
        → SessionStandsFor s history held session.old
        → Puts (go_forth history s (range_in range) held).text (K.faults sink.old)
        (K.faults sink.new) (K.written sink.old) (K.written sink.new) result }
{
    let reason = forth(&mut session.debugger, &session.stops, range);
    let before = session.shown;
    let output = session.debugger.output();
    session.shown = before.max(output.len());
    put_output(output, before, reason, sink)?;
    put_stop(reason, sink)
}

/// Writes the output that is new, of which so many bytes were shown before, and how the run has
/// ended, if that is why it stops.
fn put_output<K: Sink>(
    output: &[u8],
    before: usize,
    reason: Reason,
    sink: &mut K,
) -> Result<(), Failed>
    ensures count { K.faults sink.old ≤ K.faults sink.new }
    ensures written { Puts (shown_text (drop before output.now)
        ++ end_text output.now (reason_in reason)) (K.faults sink.old) (K.faults sink.new)
        (K.written sink.old) (K.written sink.new) result }
{
    put_shown(&output[before.min(output.len())..], sink)?;
    match reason {
        Reason::Ended(end) => put_shown(end_line(ends_open(output), end).as_slice(), sink),
        _ => Ok(()),
    }
}

/// Runs backwards, and tells why the run stops.
fn go_back<D: Device, K: Sink>(
    session: &mut Session<D>,
    range: Range,
    sink: &mut K,
) -> Result<(), Failed>
    ensures stands { (s : RunSetup) (history : ℕ) (held : GdbSession)
        → SessionStandsFor s history held session.old
        → SessionStandsFor s history (go_back s (range_in range) held).session session.new }
    ensures count { K.faults sink.old ≤ K.faults sink.new }
    ensures written { (s : RunSetup) (history : ℕ) (held : GdbSession)
        → SessionStandsFor s history held session.old
        → Puts (go_back s (range_in range) held).text (K.faults sink.old) (K.faults sink.new)
        (K.written sink.old) (K.written sink.new) result }
{
    let reason = back(&mut session.debugger, &session.stops, range);
    put_stop(reason, sink)
}

/// Writes why a run stops.
fn put_stop<K: Sink>(reason: Reason, sink: &mut K) -> Result<(), Failed>
    ensures count { K.faults sink.old ≤ K.faults sink.new }
    ensures written { Puts (frame (stop_reply (reason_in reason))) (K.faults sink.old)
        (K.faults sink.new) (K.written sink.old) (K.written sink.new) result }
{
    match reason {
        Reason::Stop => put_content(b"T05", sink),
        Reason::Ended(_) => put_content(b"T05replaylog:end;", sink),
        Reason::Begin => put_content(b"T05replaylog:begin;", sink),
        Reason::Watch(byte) => put_watch(byte, sink),
    }
}

/// Writes that a run stops at a watched byte.
fn put_watch<K: Sink>(byte: u64, sink: &mut K) -> Result<(), Failed>
    ensures count { K.faults sink.old ≤ K.faults sink.new }
    ensures written { Puts (frame (stop_reply (reason_in (Reason.Watch byte)))) (K.faults sink.old)
        (K.faults sink.new) (K.written sink.old) (K.written sink.new) result }
{
    let mut reply = Reply::new();
    reply.bytes(b"T05watch:");
    reply.number(byte);
    reply.byte(b';');
    put_reply(reply, sink)
}
