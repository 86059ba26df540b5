//! Rows of counts by address, as lines of numbers with commas between them.
ghost use Rattle.std.specs.Prelude.{◌≡◌, ◌≤◌, ◌++◌, codes};
ghost use Rattle.fsim_ports.specs.Sink.{Puts};
ghost use Rattle.mono_model.specs.Report.{hex};
ghost use Rattle.insight_model.specs.Count.{count_header};
ghost use Rattle.insight_model.specs.Profile.{numbers_line, profile_header, row_name};
ghost use Rattle.report_text.specs.RowText.{number_text, numbers_text, row_number};

use crate::line::Line;
use crate::put::{WriteFault, put_piece};
use fsim_ports::Sink;

/// The address and the word that a row begins with; all other addresses share one row.
fn row_head(addr: Option<u32>, word: u32) -> Line
    ensures text { result ≡ row_name (row_number addr) ++ codes "," ++ hex 8 word }
{
    let mut line = Line::new();
    match addr {
        Some(addr) => line.hex(8, u64::from(addr)),
        None => line.bytes(b"other"),
    }
    line.byte(b',');
    line.hex(8, u64::from(word));
    line
}

/// A comma and a number.
fn next_number(number: u64) -> Line
    ensures text { result ≡ number_text number }
{
    let mut line = Line::new();
    line.byte(b',');
    line.number(number);
    line
}

/// Writes numbers, each after a comma.
fn put_numbers<K: Sink>(numbers: &[u64], sink: &mut K) -> Result<(), WriteFault>
    ensures count { K.faults sink.old ≤ K.faults sink.new }
    ensures written { Puts (numbers_text numbers.now) (K.faults sink.old) (K.faults sink.new)
        (K.written sink.old) (K.written sink.new) result }
{
    for number in numbers {
        put_piece(next_number(*number).as_slice(), sink)?;
    }
    Ok(())
}

/// Writes the beginning of a row, and its numbers.
fn put_row<K: Sink>(
    addr: Option<u32>,
    word: u32,
    numbers: &[u64],
    sink: &mut K,
) -> Result<(), WriteFault>
    ensures count { K.faults sink.old ≤ K.faults sink.new }
    ensures written { Puts (row_name (row_number addr) ++ codes "," ++ hex 8 word
        ++ numbers_text numbers.now) (K.faults sink.old) (K.faults sink.new)
        (K.written sink.old) (K.written sink.new) result }
{
    put_piece(row_head(addr, word).as_slice(), sink)?;
    put_numbers(numbers, sink)
}

/// Writes the row of an address: its word, and numbers. All other addresses share a row.
///
/// Ok says that the whole line was written. A fault comes only where the sink's count of faults
/// rose, and then a proper prefix of the line was written. It takes no memory.
pub fn number_row<K: Sink>(
    addr: Option<u32>,
    word: u32,
    numbers: &[u64],
    sink: &mut K,
) -> Result<(), WriteFault>
    ensures count { K.faults sink.old ≤ K.faults sink.new }
    ensures written { Puts (numbers_line (row_number addr) word numbers.now)
        (K.faults sink.old) (K.faults sink.new) (K.written sink.old) (K.written sink.new) result }
{
    put_row(addr, word, numbers, sink)?;
    put_piece(b"\n", sink)
}

/// Writes the names of the columns that a count of instructions has.
#[tactic(auto, unfolding(insight_model::specs::Count::count_header))]
pub fn count_header<K: Sink>(sink: &mut K) -> Result<(), WriteFault>
    ensures count { K.faults sink.old ≤ K.faults sink.new }
    ensures written { Puts count_header (K.faults sink.old) (K.faults sink.new)
        (K.written sink.old) (K.written sink.new) result }
{
    put_piece(b"address,word,retired,exceptions,taken\n", sink)
}

/// Writes the names of the columns that a profile has.
#[tactic(auto, unfolding(insight_model::specs::Profile::profile_header))]
pub fn profile_header<K: Sink>(sink: &mut K) -> Result<(), WriteFault>
    ensures count { K.faults sink.old ≤ K.faults sink.new }
    ensures written { Puts profile_header (K.faults sink.old) (K.faults sink.new)
        (K.written sink.old) (K.written sink.new) result }
{
    put_piece(
        b"address,word,retired,exceptions,taken,fetched,squashed,mispredicted,\
          icache_accesses,icache_misses,dcache_accesses,dcache_misses,l2_accesses,l2_misses,\
          writebacks,cycles,commit,alu,mul,div,load,store,device,serial,operand,dcache,icache,\
          window,stations,mispredict,trap,interrupt,replay,fence,start\n",
        sink,
    )
}
