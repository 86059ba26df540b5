ghost use Rattle.std.specs.Prelude.{◌≡◌, true, ◌+◌, ◌≤◌, ◌++◌, length, codes, decimal};
ghost use Rattle.std.specs.Fmt.{signed_decimal};
ghost use Rattle.fsim_ports.specs.Sink.{Puts};
ghost use Rattle.mono_model.specs.Report.{line, line_feed};
ghost use Rattle.report_text.specs.FaultText.{role_text, image_fault_text, machine_fault_text};
ghost use Rattle.report_text.specs.FaultText.{usage_text, has_image_line, has_machine_line};
ghost use Rattle.report_text.specs.FaultText.{has_line, fault_text};

use crate::keyed::keyed_line;
use crate::line::Line;
use crate::put::{WriteFault, put_piece, put_three};
use crate::report_lines::count_line;
use crate::status::{Role, Status};
use elf_image::ImageFault;
use fsim_ports::Sink;
use machine_file::MachineFault;

/// A line's beginning and a file's role.
fn role_head(head: &[u8], role: Role) -> Line
    requires head { length head.now ≤ 40 }
    ensures text { result ≡ head.now ++ role_text role }
    ensures len { length result ≤ length head.now + 7 }
{
    let mut line = Line::new();
    line.bytes(head);
    match role {
        Role::Image => line.bytes(b"image"),
        Role::Machine => line.bytes(b"machine"),
        Role::Plan => line.bytes(b"plan"),
        Role::Input => line.bytes(b"input"),
        Role::Script => line.bytes(b"script"),
        Role::Packets => line.bytes(b"packets"),
    }
    line
}

fn role_line(head: &[u8], role: Role) -> Line
    requires head { length head.now ≤ 40 }
    ensures text { result ≡ line head.now (role_text role) }
{
    let mut line = role_head(head, role);
    line.byte(b'\n');
    line
}

fn too_long_line(role: Role, limit: u64) -> Line
    ensures text { result ≡ codes "fast: too long: " ++ role_text role ++ codes " " ++ decimal limit
        ++ line_feed }
{
    let mut line = role_head(b"fast: too long: ", role);
    line.byte(b' ');
    line.number(limit);
    line.byte(b'\n');
    line
}

/// What is wrong with an image.
fn image_words(fault: ImageFault) -> Line
    requires told { has_image_line fault ≡ true }
    ensures text { result ≡ image_fault_text fault }
    ensures len { length result ≤ 100 }
{
    let mut line = Line::new();
    match fault {
        ImageFault::Short => line.bytes(b"short"),
        ImageFault::Magic => line.bytes(b"magic"),
        ImageFault::Class => line.bytes(b"class"),
        ImageFault::Endian => line.bytes(b"endian"),
        ImageFault::FileType => line.bytes(b"file type"),
        ImageFault::Machine => line.bytes(b"machine"),
        ImageFault::EntrySize => line.bytes(b"entry size"),
        ImageFault::Count(count) => numbered(&mut line, b"count ", count),
        ImageFault::TableOutside => line.bytes(b"table outside"),
        ImageFault::FileOutside(index) => numbered(&mut line, b"file outside ", index),
        ImageFault::Larger(index) => numbered(&mut line, b"larger ", index),
        ImageFault::OutsideRam(index) => numbered(&mut line, b"outside ram ", index),
        ImageFault::Overlap(index, earlier) => {
            numbered(&mut line, b"overlap ", index);
            numbered(&mut line, b" ", earlier);
        }
        ImageFault::Memory => unreachable!(),
    }
    line
}

/// Appends words and a number.
fn numbered(line: &mut Line, words: &[u8], number: u32)
    requires words { length words.now ≤ 20 }
    requires room { length line.old ≤ 60 }
    ensures text { line.new ≡ line.old ++ words.now ++ decimal number }
    ensures len { length line.new ≤ length line.old + length words.now + 20 }
{
    line.bytes(words);
    line.number(u64::from(number));
}

/// The line of what is wrong with an image, behind its beginning.
pub fn image_line(head: &[u8], fault: ImageFault) -> Line
    requires head { length head.now ≤ 40 }
    requires told { has_image_line fault ≡ true }
    ensures text { result ≡ line head.now (image_fault_text fault) }
{
    let mut line = Line::new();
    line.bytes(head);
    line.bytes(image_words(fault).as_slice());
    line.byte(b'\n');
    line
}

/// Writes a name and a number as a line.
fn put_count<K: Sink>(name: &[u8], number: u64, sink: &mut K) -> Result<(), WriteFault>
    requires name { length name.now ≤ 40 }
    ensures count { K.faults sink.old ≤ K.faults sink.new }
    ensures written { Puts (name.now ++ decimal number ++ line_feed) (K.faults sink.old)
        (K.faults sink.new) (K.written sink.old) (K.written sink.new) result }
{
    put_piece(count_line(name, number).as_slice(), sink)
}

/// What stands behind a key: a blank, its value and the line's end.
fn value_tail(value: i64) -> Line
    ensures text { result ≡ codes " " ++ signed_decimal value ++ line_feed }
{
    let mut line = Line::new();
    line.byte(b' ');
    line.signed(value);
    line.byte(b'\n');
    line
}

/// Writes a beginning, a key and what stands behind it as one line.
fn put_key<K: Sink>(head: &[u8], key: &[u8], tail: &[u8], sink: &mut K) -> Result<(), WriteFault>
    ensures count { K.faults sink.old ≤ K.faults sink.new }
    ensures written { Puts (head.now ++ key.now ++ tail.now) (K.faults sink.old) (K.faults sink.new)
        (K.written sink.old) (K.written sink.new) result }
{
    match keyed_line(head, key, tail) {
        Some(line) => put_piece(line.as_slice(), sink),
        None => put_three(head, key, tail, sink),
    }
}

/// Writes a beginning, a key and its value. The key may have any length.
fn put_value<K: Sink>(head: &[u8], key: &[u8], value: &i64, sink: &mut K) -> Result<(), WriteFault>
    ensures count { K.faults sink.old ≤ K.faults sink.new }
    ensures written { Puts (head.now ++ key.now ++ codes " " ++ signed_decimal value.now
        ++ line_feed) (K.faults sink.old) (K.faults sink.new) (K.written sink.old)
        (K.written sink.new) result }
{
    let tail = value_tail(*value);
    put_key(head, key, tail.as_slice(), sink)
}

/// The beginning of a line, with words behind it.
fn longer_head(head: &[u8], words: &[u8]) -> Line
    requires head { length head.now ≤ 40 }
    requires words { length words.now ≤ 40 }
    ensures text { result ≡ head.now ++ words.now }
{
    let mut line = Line::new();
    line.bytes(head);
    line.bytes(words);
    line
}

/// Writes what is wrong with a machine file, behind the beginning of its line.
pub fn machine_line<K: Sink>(
    head: &[u8],
    fault: &MachineFault,
    sink: &mut K,
) -> Result<(), WriteFault>
    requires head { length head.now ≤ 40 }
    requires told { has_machine_line fault.now ≡ true }
    ensures count { K.faults sink.old ≤ K.faults sink.new }
    ensures written { Puts (line head.now (machine_fault_text fault.now)) (K.faults sink.old)
        (K.faults sink.new) (K.written sink.old) (K.written sink.new) result }
{
    match fault {
        MachineFault::NotToml => put_piece(longer_head(head, b"not toml\n").as_slice(), sink),
        MachineFault::Unknown(key) => {
            put_key(
                longer_head(head, b"unknown ").as_slice(),
                key.as_slice(),
                b"\n",
                sink,
            )
        }
        MachineFault::Kind(key) => {
            put_key(
                longer_head(head, b"kind ").as_slice(),
                key.as_slice(),
                b"\n",
                sink,
            )
        }
        MachineFault::Range(key, value) => {
            put_value(
                longer_head(head, b"range ").as_slice(),
                key.as_slice(),
                value,
                sink,
            )
        }
        MachineFault::Power(key, value) => {
            put_value(
                longer_head(head, b"power ").as_slice(),
                key.as_slice(),
                value,
                sink,
            )
        }
        MachineFault::Memory => unreachable!(),
    }
}

/// Writes the line of words that are none.
#[tactic(auto, unfolding(crate::specs::FaultText::usage_text))]
fn usage_line<K: Sink>(sink: &mut K) -> Result<(), WriteFault>
    ensures count { K.faults sink.old ≤ K.faults sink.new }
    ensures written { Puts usage_text (K.faults sink.old) (K.faults sink.new) (K.written sink.old)
        (K.written sink.new) result }
{
    put_piece(
        b"fast: usage: fast func IMAGE, run IMAGE MACHINE, sched IMAGE MACHINE PLAN, \
          soak SEED, back IMAGE SCRIPT, inorder IMAGE MACHINE PLAN, sweep IMAGE MACHINES, \
          trace IMAGE MACHINE, stack IMAGE MACHINE, profile IMAGE MACHINE, \
          count IMAGE, gdb IMAGE\n",
        sink,
    )
}

/// Writes the line of an answer that has one, by one `put_all`. Only a key that no machine file
/// within its limit has is put in pieces.
///
/// Ok says that the whole line was written. A fault comes only where the sink's count of faults
/// rose, and then a proper prefix of the line was written. It takes no memory.
#[tactic(auto, unfolding(crate::specs::FaultText::fault_text))]
pub fn fault_line<K: Sink>(status: &Status, sink: &mut K) -> Result<(), WriteFault>
    requires line { has_line status.now ≡ true }
    ensures count { K.faults sink.old ≤ K.faults sink.new }
    ensures written { Puts (fault_text status.now) (K.faults sink.old) (K.faults sink.new)
        (K.written sink.old) (K.written sink.new) result }
{
    match status {
        Status::Usage => usage_line(sink),
        Status::Image(fault) => { put_piece(image_line(b"fast: image: ", *fault).as_slice(), sink) }
        Status::Machine(fault) => machine_line(b"fast: machine: ", fault, sink),
        Status::Missing(role) => put_piece(role_line(b"fast: missing: ", *role).as_slice(), sink),
        Status::ReadFault(role) => {
            put_piece(role_line(b"fast: read fault: ", *role).as_slice(), sink)
        }
        Status::Memory => put_piece(b"fast: no memory\n", sink),
        Status::TooLong(role, limit) => put_piece(too_long_line(*role, *limit).as_slice(), sink),
        Status::BadPlan(place) => put_count(b"fast: bad plan: ", *place, sink),
        Status::BadScript(line) => put_count(b"fast: bad script: ", *line, sink),
        Status::Sets(named) => put_count(b"fast: sets: ", *named, sink),
        Status::TooMuchText(pages) => {
            put_count(b"fast: too much text: ", u64::from(*pages), sink)
        }
        Status::Pass
        | Status::Fail(_)
        | Status::Limit
        | Status::OutputFull
        | Status::Running
        | Status::Shown
        | Status::WriteFault => unreachable!(),
    }
}
