//! Lines that GDB shows.
ghost use Rattle.std.specs.Prelude.{◌≡◌, ◌++◌, [], codes, decimal, if◌then◌else◌};
ghost use Rattle.mono_model.specs.Report.{line_feed, status_text};
ghost use Rattle.gdb_session.specs.Lines.{where_text};

use mono_model::End;
use report_text::{Line, end_words};

/// How a run has ended, as a line of its own, after output whose last line may be open.
pub fn end_line(is_open: bool, end: End) -> Line
    ensures text { result ≡ (if is_open then line_feed else []) ++ codes "fast: "
        ++ status_text end ++ line_feed }
{
    let mut line = Line::new();
    if is_open {
        line.byte(b'\n');
    }
    line.bytes(b"fast: ");
    end_words(&mut line, end);
    line.byte(b'\n');
    line
}

/// Where a session stands: its position, the oldest one, how many bytes of output there are, and
/// how the run has ended.
pub fn where_line(at: u64, oldest: u64, output: u64, end: End) -> Line
    ensures text { result ≡ where_text at oldest output end }
{
    let mut line = Line::new();
    line.bytes(b"step ");
    line.number(at);
    line.bytes(b", oldest ");
    line.number(oldest);
    line.bytes(b", output ");
    line.number(output);
    line.bytes(b" bytes, ");
    end_words(&mut line, end);
    line.byte(b'\n');
    line
}
