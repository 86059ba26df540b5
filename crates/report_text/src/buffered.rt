ghost use Rattle.std.specs.Prelude.{◌≡◌, ◌≤◌, [], length, vec_capacity, IfOk, OnOk};
ghost use Rattle.fsim_ports.specs.Sink.{Puts};
ghost use Rattle.report_text.specs.Buffered.{PutsLater};

use crate::put::{WriteFault, put_piece};
use fsim_base::NoMemory;
use fsim_ports::Sink;
use std::alloc::Global;

/// How many bytes are gathered before they are written.
const ROOM: usize = 8192;

/// Text that is written in large pieces: what was given and not yet written.
#[derive(Debug, Drop)]
pub struct TextBuffer {
    bytes: Vec<u8>,
}

impl TextBuffer {
    /// A buffer without text. It takes its memory here.
    pub fn new(alloc: Global) -> Result<TextBuffer, NoMemory>
        ensures empty { IfOk result (λ buffer. buffer.bytes.items ≡ []) }
        ensures room { IfOk result (λ buffer. 8192 ≤ vec_capacity buffer.bytes) }
    {
        match Vec::with_capacity(alloc, ROOM) {
            Ok(bytes) => Ok(TextBuffer { bytes }),
            Err(_) => Err(NoMemory),
        }
    }

    /// Adds a piece of text, and writes what was gathered before it where there is no room.
    pub fn put<K: Sink>(&mut self, piece: &[u8], sink: &mut K) -> Result<(), WriteFault>
        requires room { 8192 ≤ vec_capacity self.old.bytes }
        requires few { length self.old.bytes.items ≤ 8192 }
        ensures room { 8192 ≤ vec_capacity self.new.bytes }
        ensures few { length self.new.bytes.items ≤ 8192 }
        ensures count { K.faults sink.old ≤ K.faults sink.new }
        ensures written { PutsLater piece.now self.old.bytes.items self.new.bytes.items
            (K.faults sink.old) (K.faults sink.new) (K.written sink.old) (K.written sink.new)
            result }
    {
        if ROOM - self.bytes.len() < piece.len() {
            self.flush(sink)?;
        }
        if ROOM < piece.len() {
            return put_piece(piece, sink);
        }
        self.bytes.extend_from_slice(piece).unwrap();
        Ok(())
    }

    /// Writes what was gathered.
    pub fn flush<K: Sink>(&mut self, sink: &mut K) -> Result<(), WriteFault>
        ensures capacity { vec_capacity self.new.bytes ≡ vec_capacity self.old.bytes }
        ensures few { length self.new.bytes.items ≤ length self.old.bytes.items }
        ensures empty { OnOk result (self.new.bytes.items ≡ []) }
        ensures count { K.faults sink.old ≤ K.faults sink.new }
        ensures written { Puts self.old.bytes.items (K.faults sink.old) (K.faults sink.new)
            (K.written sink.old) (K.written sink.new) result }
    {
        put_piece(self.bytes.as_slice(), sink)?;
        self.bytes.clear();
        Ok(())
    }
}
