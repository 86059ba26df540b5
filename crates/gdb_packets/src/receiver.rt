ghost use Rattle.std.specs.Prelude.{◌≡◌, [], ◌∷◌, ◌++◌, take};

use crate::arrival::Arrival;
use crate::number::number_in;
use crate::packet::{CONTENT_LIMIT, Packet};
use crate::parsing::parse;
use crate::place::Place;
use arrayvec::ArrayVec;
use std::marker::Model;

/// How many bytes of a packet's content are kept: one more than it may have, so that a longer one
/// is told apart.
const ROOM: usize = CONTENT_LIMIT + 1;

/// Takes the bytes that a debugger sends, one by one, and tells when a packet has come. It stands
/// for the stream of the bytes taken.
#[derive(Drop)]
pub struct Receiver {
    place: Place,
    content: ArrayVec<u8, ROOM>,
    sum: u8,
}

impl Model for Receiver {
    ghost use Rattle.gdb_packets.specs.Receiver.{Kept};

    ghost Value = { Kept };

    ghost view = { λ r. record { place = r.place; content = r.content.items; sum = r.sum } };
}

impl Receiver {
    ghost use Rattle.std.specs.Prelude.{◌≡◌};
    ghost use Rattle.gdb_packets.specs.Packet.{packet_of};
    ghost use Rattle.gdb_packets.specs.Receiver.{StandsFor};
    ghost use Rattle.gdb_packets.specs.Stream.{Stream, added, arrival, arrival_of};
    ghost use Rattle.gdb_packets.specs.Stream.{inside, next, opening, started};

    /// A receiver that has taken no byte.
    pub fn new() -> Receiver
        ensures opening { StandsFor opening result }
    {
        Receiver {
            place: Place::Outside,
            content: ArrayVec::new(),
            sum: 0,
        }
    }

    /// Takes the next byte. A packet may end with it.
    pub fn take(&mut self, byte: u8) -> Option<Arrival>
        ensures stands { (s : Stream) → StandsFor s self.old → StandsFor (next s byte) self.new }
        ensures arrival { (s : Stream) → StandsFor s self.old → result ≡ arrival s byte }
    {
        match self.place {
            Place::Outside => {
                if byte == b'$' {
                    self.start();
                }
                None
            }
            Place::Content => {
                self.take_inside(byte);
                None
            }
            Place::First => {
                self.place = Place::Second(byte);
                None
            }
            Place::Second(high) => {
                let arrival = self.arrival(high, byte);
                self.place = Place::Outside;
                Some(arrival)
            }
        }
    }

    /// What the packet asks for that came last.
    pub fn packet(&self) -> Packet<'_>
        ensures packet { (s : Stream) → StandsFor s self.now → result ≡ packet_of s.content }
    {
        parse(self.content.as_slice())
    }

    /// A packet begins.
    fn start(&mut self)
        ensures stands { StandsFor started self.new }
    {
        self.place = Place::Content;
        self.content.clear();
        self.sum = 0;
    }

    /// Takes a byte within a packet.
    fn take_inside(&mut self, byte: u8)
        ensures stands { (s : Stream) → StandsFor s self.old → StandsFor (inside s byte) self.new }
    {
        match byte {
            b'$' => self.start(),
            b'#' => self.place = Place::First,
            _ => self.add(byte),
        }
    }

    /// Adds a byte to the content. One for which there is no room leaves it too long.
    fn add(&mut self, byte: u8)
        ensures stands { (s : Stream) → StandsFor s self.old → StandsFor (added s byte) self.new }
    {
        keep(&mut self.content, byte);
        self.sum = self.sum.wrapping_add(byte);
    }

    /// How the packet has come whose sum these two bytes are to write.
    fn arrival(&self, high: u8, low: u8) -> Arrival
        ensures arrival { (s : Stream) → StandsFor s self.now
            → result ≡ arrival_of high low s.content }
    {
        if number_in(&[high, low]) == Some(u64::from(self.sum)) {
            Arrival::Whole
        } else {
            Arrival::Damaged
        }
    }
}

/// Appends a byte, if there is room.
fn keep(content: &mut ArrayVec<u8, ROOM>, byte: u8)
    ensures kept { content.new.items ≡ take ROOM (content.old.items ++ byte ∷ []) }
{
    if !content.is_full() {
        content.push(byte);
    }
}
