//! What is written: packets, and texts that GDB shows.
ghost use Rattle.std.specs.Prelude.{◌≡◌, ◌≤◌, ◌++◌, codes, length};
ghost use Rattle.hex.specs.Hex.{encode_lower};
ghost use Rattle.fsim_ports.specs.Sink.{Puts};
ghost use Rattle.gdb_packets.specs.Frame.{frame};
ghost use Rattle.gdb_model.specs.Answer.{shown_text};

use fsim_ports::{Failed, Sink, put_all};
use gdb_packets::{CONTENT_LIMIT, Reply};

/// How many bytes of text a packet has room for, two digits each after an `O`.
const PIECE: usize = (CONTENT_LIMIT - 1) / 2;

/// Writes a packet.
pub fn put_reply<K: Sink>(reply: Reply, sink: &mut K) -> Result<(), Failed>
    ensures count { K.faults sink.old ≤ K.faults sink.new }
    ensures written { Puts (frame reply) (K.faults sink.old) (K.faults sink.new)
        (K.written sink.old) (K.written sink.new) result }
{
    put_all(sink, reply.finish().as_slice())
}

/// Writes a packet with this content.
pub fn put_content<K: Sink>(content: &[u8], sink: &mut K) -> Result<(), Failed>
    requires room { length content.now ≤ CONTENT_LIMIT }
    ensures count { K.faults sink.old ≤ K.faults sink.new }
    ensures written { Puts (frame content.now) (K.faults sink.old) (K.faults sink.new)
        (K.written sink.old) (K.written sink.new) result }
{
    let mut reply = Reply::new();
    reply.bytes(content);
    put_reply(reply, sink)
}

/// Writes a piece of a text as a packet that GDB shows.
fn put_piece<K: Sink>(piece: &[u8], sink: &mut K) -> Result<(), Failed>
    requires room { length piece.now ≤ PIECE }
    ensures count { K.faults sink.old ≤ K.faults sink.new }
    ensures written { Puts (frame (codes "O" ++ encode_lower piece.now)) (K.faults sink.old)
        (K.faults sink.new) (K.written sink.old) (K.written sink.new) result }
{
    let mut reply = Reply::new();
    reply.byte(b'O');
    reply.hex_bytes(piece);
    put_reply(reply, sink)
}

/// Writes a text that GDB shows, in as many packets as it needs.
pub fn put_shown<K: Sink>(text: &[u8], sink: &mut K) -> Result<(), Failed>
    ensures count { K.faults sink.old ≤ K.faults sink.new }
    ensures written { Puts (shown_text text.now) (K.faults sink.old) (K.faults sink.new)
        (K.written sink.old) (K.written sink.new) result }
{
    for piece in text.chunks(PIECE) {
        put_piece(piece, sink)?;
    }
    Ok(())
}
