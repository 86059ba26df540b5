//! The lines of a pipeline trace (Kanata log format, version 0004): fields with tabs between them.
ghost use Rattle.std.specs.Prelude.{◌≡◌, ◌≤◌, ◌∷◌, ◌++◌, [], codes, decimal, if◌then◌else◌};
ghost use Rattle.std.specs.Prelude.{length, option_to_list};
ghost use Rattle.insight_model.specs.Sight.{next_seen};
ghost use Rattle.insight_model.specs.Trace.{access_notes, cell_line, cycles_line, label_line};
ghost use Rattle.insight_model.specs.Trace.{last_line, note_line, producer_line, shown_text};
ghost use Rattle.insight_model.specs.Trace.{spot_text, tabbed, wrong_note};
ghost use Rattle.mono_model.specs.Report.{hex};
ghost use Rattle.cycle_watch.specs.Cells.{cell_in};
ghost use Rattle.cycle_watch.specs.Shown.{outcome_in, shown_in};

use crate::cell::Cell;
use crate::shown::Shown;
use disassembly::{WordText, write_text};
use fsim_base::{Access, Spot};
use report_text::Line;

/// A letter, and the number of an instruction in the file.
fn numbered(letter: u8, number: u64) -> Line
    ensures text { result ≡ letter ∷ 9 ∷ decimal number }
    ensures len { length result ≤ 22 }
{
    let mut line = Line::new();
    line.byte(letter);
    line.byte(b'\t');
    line.number(number);
    line
}

/// The first line.
pub(crate) fn version_line() -> Line
    ensures text { result ≡ tabbed (codes "Kanata" ∷ codes "0004" ∷ []) }
{
    let mut line = Line::new();
    line.bytes(b"Kanata\t0004\n");
    line
}

/// The cycle with which the file begins.
pub(crate) fn first_cycle_line(cycle: u64) -> Line
    ensures text { result ≡ tabbed (codes "C=" ∷ decimal cycle ∷ []) }
{
    let mut line = Line::new();
    line.bytes(b"C=\t");
    line.number(cycle);
    line.byte(b'\n');
    line
}

/// So many cycles go by.
pub(crate) fn cycles_line(count: u64) -> Line
    ensures text { result ≡ cycles_line count }
{
    let mut line = numbered(b'C', count);
    line.byte(b'\n');
    line
}

/// An instruction is introduced, with its place in the run.
pub(crate) fn instruction_line(number: u64, place: u64) -> Line
    ensures text { result
        ≡ tabbed (codes "I" ∷ decimal number ∷ decimal place ∷ codes "0" ∷ []) }
{
    let mut line = numbered(b'I', number);
    line.byte(b'\t');
    line.number(place);
    line.bytes(b"\t0\n");
    line
}

/// Address, word and text of an instruction.
pub(crate) fn label_line(number: u64, shown: &Shown) -> Line
    ensures text { result ≡ label_line number (codes "0") (shown_text (shown_in shown.now)) }
{
    let mut line = numbered(b'L', number);
    line.bytes(b"\t0\t");
    line.hex(8, u64::from(shown.addr));
    line.bytes(b": ");
    line.hex(8, u64::from(shown.word.unwrap_or(0)));
    line.byte(b' ');
    match shown.word {
        Some(word) => {
            let mut text = WordText::new();
            write_text(shown.addr, word, &mut text);
            line.bytes(text.as_slice());
        }
        None => line.bytes(b"not fetched"),
    }
    line.byte(b'\n');
    line
}

/// The cell in which an instruction is from this cycle on.
pub(crate) fn cell_line(number: u64, cell: Cell) -> Line
    ensures text { result ≡ cell_line number (cell_in cell) }
{
    let mut line = numbered(b'S', number);
    line.bytes(b"\t0\t");
    line.byte(cell.letter());
    line.byte(b'\n');
    line
}

/// The last line of an instruction: it left, or it was squashed.
pub(crate) fn last_line(number: u64, place: u64, is_squashed: bool) -> Line
    ensures text { result
        ≡ last_line number place (if is_squashed then codes "1" else codes "0") }
{
    let mut line = numbered(b'R', number);
    line.byte(b'\t');
    line.number(place);
    line.byte(b'\t');
    line.byte(if is_squashed { b'1' } else { b'0' });
    line.byte(b'\n');
    line
}

/// An instruction waits for the value of another.
pub(crate) fn producer_line(number: u64, producer: u64) -> Line
    ensures text { result ≡ producer_line number producer }
{
    let mut line = numbered(b'W', number);
    line.byte(b'\t');
    line.number(producer);
    line.bytes(b"\t0\n");
    line
}

/// The beginning of a note.
fn note_head(number: u64) -> Line
    ensures text { result ≡ 76 ∷ 9 ∷ decimal number ++ codes "\t1\t" }
    ensures len { length result ≤ 25 }
{
    let mut line = numbered(b'L', number);
    line.bytes(b"\t1\t");
    line
}

/// A note: words, and its end.
pub(crate) fn note_line(number: u64, words: &[u8], more: &[u8]) -> Line
    requires words { length words.now ≤ 60 }
    requires more { length more.now ≤ 60 }
    ensures text { result ≡ note_line number (words.now ++ more.now) }
{
    let mut line = note_head(number);
    line.bytes(words);
    line.bytes(more);
    line.bytes(b"; \n");
    line
}

/// A note: words with a number.
pub(crate) fn number_note(number: u64, words: &[u8], told: u64) -> Line
    requires words { length words.now ≤ 60 }
    ensures text { result ≡ note_line number (words.now ++ decimal told) }
{
    let mut line = note_head(number);
    line.bytes(words);
    line.number(told);
    line.bytes(b"; \n");
    line
}

/// The address of the instruction after one; 0 where that has a cause.
fn next_seen(shown: &Shown) -> u32
    ensures next { result ≡ next_seen shown.now.cause shown.now.next }
{
    if shown.cause.is_none() { shown.next } else { 0 }
}

/// The note of a misprediction.
pub(crate) fn wrong_note(number: u64, shown: &Shown) -> Line
    ensures text { result ≡ wrong_note number (shown_in shown.now) (outcome_in shown.now) }
{
    let mut line = note_head(number);
    line.bytes(b"mispredicted: to ");
    line.hex(8, u64::from(next_seen(shown)));
    line.bytes(b", predicted ");
    line.hex(8, u64::from(shown.predicted));
    line.bytes(b"; \n");
    line
}

/// The note of an access, if there is one.
pub(crate) fn access_note(number: u64, access: Access) -> Option<Line>
    ensures text { option_to_list result ≡ access_notes number access }
{
    match access {
        Access::Nothing => None,
        Access::Load { addr, spot, .. } => Some(spot_note(number, b"load ", addr, spot)),
        Access::Store { addr, spot, .. } => Some(spot_note(number, b"store ", addr, spot)),
    }
}

/// The note of an access: what it is, its address, and where that is.
fn spot_note(number: u64, word: &[u8], addr: u32, spot: Spot) -> Line
    requires word { length word.now ≤ 60 }
    ensures text { result ≡ note_line number (word.now ++ hex 8 addr ++ spot_text spot) }
{
    let mut line = note_head(number);
    line.bytes(word);
    line.hex(8, u64::from(addr));
    match spot {
        Spot::Ram => {}
        Spot::Device => line.bytes(b" device"),
        Spot::Nowhere => line.bytes(b" nowhere"),
    }
    line.bytes(b"; \n");
    line
}
