//! Commands for the monitor, which a debugger's user writes.
ghost use Rattle.std.specs.Prelude.{◌≡◌, ◌≤◌, ℕ, codes, unwrap_or};
ghost use Rattle.gdb_packets.specs.Packet.{after_text};
ghost use Rattle.mono_model.specs.declared.setup.Setup.{Setup as RunSetup};
ghost use Rattle.fsim_ports.specs.Sink.{Puts};
ghost use Rattle.gdb_model.specs.Session.{Session as GdbSession};
ghost use Rattle.gdb_model.specs.Answer.{shown_text};
ghost use Rattle.gdb_model.specs.Talk.{commanded, end_or_running, position_in, where_line};
ghost use Rattle.func_model.specs.History.{end_at};
ghost use Rattle.func_model.specs.Position.{LiesAhead};
ghost use Rattle.gdb_session.specs.Commands.{command_of, obeyed, stop_at, told_of};
ghost use Rattle.gdb_session.specs.Standing.{SessionStandsFor};

use crate::lines::where_line;
use crate::session::Session;
use crate::told::{put_content, put_shown};
use arrayvec::ArrayVec;
use device_bus::Device;
use fsim_ports::{Failed, Sink};
use func_model::Ahead;
use gdb_packets::HexBytes;
use mono_model::End;

/// How many bytes a command has at most: `stop ` and twenty digits.
const ROOM: usize = 25;

/// What a command begins with that sets the mark.
const STOP: &[u8] = b"stop ";

/// Which commands there are.
const USAGE: &[u8] = b"monitor where, output, stop, stop N\n";

/// What a command asks for.
#[derive(Clone, Copy, Debug, PartialEq, Eq)]
enum Command {
    /// `where`: where the session stands.
    Where,
    /// `output`: all output so far.
    Output,
    /// `stop N`, and `stop` alone: a position at which runs stop, or none.
    Stop(Option<u64>),
    /// None of these.
    Unknown,
}

/// Does what a command asks for, and answers it.
pub fn play_command<D: Device, K: Sink>(
    session: &mut Session<D>,
    bytes: &HexBytes<'_>,
    sink: &mut K,
) -> Result<(), Failed>
    ensures stands { (s : RunSetup) (history : ℕ) (held : GdbSession)
        → SessionStandsFor s history held session.old
        → SessionStandsFor s history (commanded s bytes.now held).session session.new }
    ensures count { K.faults sink.old ≤ K.faults sink.new }
    ensures written { (s : RunSetup) (history : ℕ) (held : GdbSession)
        → SessionStandsFor s history held session.old
        → Puts (commanded s bytes.now held).text (K.faults sink.old) (K.faults sink.new)
        (K.written sink.old) (K.written sink.new) result }
{
    obey(session, command_in(bytes), sink)?;
    put_content(b"OK", sink)
}

/// Does what a command asks for, and shows what it has to tell.
fn obey<D: Device, K: Sink>(
    session: &mut Session<D>,
    command: Command,
    sink: &mut K,
) -> Result<(), Failed>
    ensures stands { (s : RunSetup) (history : ℕ) (held : GdbSession)
        → SessionStandsFor s history held session.old
        → SessionStandsFor s history (obeyed command held) session.new }
    ensures count { K.faults sink.old ≤ K.faults sink.new }
    ensures written { (s : RunSetup) (history : ℕ) (held : GdbSession)
        → SessionStandsFor s history held session.old
        → Puts (shown_text (told_of s command held)) (K.faults sink.old) (K.faults sink.new)
        (K.written sink.old) (K.written sink.new) result }
{
    match command {
        Command::Where => show_where(session, sink),
        Command::Output => put_shown(session.debugger.output(), sink),
        Command::Stop(mark) => {
            session.stops.mark = mark;
            Ok(())
        }
        Command::Unknown => put_shown(USAGE, sink),
    }
}

/// Shows where a session stands.
fn show_where<D: Device, K: Sink>(session: &mut Session<D>, sink: &mut K) -> Result<(), Failed>
    ensures stands { (s : RunSetup) (history : ℕ) (held : GdbSession)
        → SessionStandsFor s history held session.old
        → SessionStandsFor s history held session.new }
    ensures count { K.faults sink.old ≤ K.faults sink.new }
    ensures written { (s : RunSetup) (history : ℕ) (held : GdbSession)
        → SessionStandsFor s history held session.old
        → Puts (shown_text (where_line s held)) (K.faults sink.old) (K.faults sink.new)
        (K.written sink.old) (K.written sink.new) result }
{
    let end = end_ahead(session.debugger.ahead());
    let debugger = &session.debugger;
    let output = debugger.output().len() as u64;
    let line = where_line(debugger.at(), debugger.floor(), output, end);
    put_shown(line.as_slice(), sink)
}

/// How a run stands: ended, or running where a step lies ahead.
fn end_ahead(ahead: Ahead) -> End
    ensures end { (s : RunSetup) (at : ℕ) → LiesAhead s at ahead
        → result ≡ end_or_running (end_at s at) }
{
    match ahead {
        Ahead::Ended(end) => end,
        Ahead::Step(_) => End::Running,
    }
}

/// What the bytes of a command ask for.
fn command_in(bytes: &HexBytes<'_>) -> Command
    ensures command { result ≡ command_of bytes.now }
{
    if ROOM < bytes.len() {
        return Command::Unknown;
    }
    let mut word = ArrayVec::<u8, ROOM>::new();
    for place in 0..bytes.len() {
        word.push(bytes.at(place));
    }
    command_of(word.as_slice())
}

/// What a command asks for.
fn command_of(word: &[u8]) -> Command
    ensures command { result ≡ command_of word.now }
{
    if word == b"where".as_slice() {
        Command::Where
    } else if word == b"output".as_slice() {
        Command::Output
    } else if word == b"stop".as_slice() {
        Command::Stop(None)
    } else {
        stop_at(word).unwrap_or(Command::Unknown)
    }
}

/// `stop N`.
fn stop_at(word: &[u8]) -> Option<Command>
    ensures stop { unwrap_or result Command.Unknown
        ≡ stop_at (after_text (codes "stop ") word.now) }
{
    let digits = word.strip_prefix(STOP)?;
    Some(Command::Stop(Some(position_in(digits)?)))
}

/// A position: one to twenty decimal digits, below 2^64.
fn position_in(digits: &[u8]) -> Option<u64>
    ensures position { result ≡ position_in digits.now }
{
    if digits.is_empty() || 20 < digits.len() {
        return None;
    }
    let mut position: u128 = 0;
    for byte in digits {
        let digit = char::from(*byte).to_digit(10)?;
        position = position * 10 + u128::from(digit);
    }
    u64::try_from(position).ok()
}
