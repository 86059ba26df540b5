//! The line of the words.
ghost use Rattle.std.specs.Prelude.{◌≡◌, IfOk, map, Some, None, Err};
ghost use Rattle.std.specs.Str.{IsUtf8};
ghost use Rattle.fast_cli.specs.Words.{AreText};
ghost use Rattle.fast_cli.specs.Line.{NamesCommand, line, line_by};
ghost use Rattle.fast_cli.specs.Ranges.{IsInRange};
ghost use Rattle.fast_cli.specs.Table.{command_in};

use crate::command::parse_form;
use crate::line::{Line, UsageFault};
use crate::lines::line_at;
use crate::table::{CommandName, command_named, form_for};
use std::alloc::Global;

/// The line of a command, by the words behind its name.
fn read_command<'a>(
    alloc: Global,
    name: CommandName,
    words: &'a [&'a str],
) -> Result<Line, UsageFault>
    requires text { AreText (map (λ w. w.now) words.now) }
    ensures ok { IfOk result (λ l. line_by (command_in name) (map (λ w. w.now) words.entry.now)
        ≡ Some l) }
    ensures ranges { IfOk result IsInRange }
    ensures words { result ≡ Err UsageFault.Words
        → line_by (command_in name) (map (λ w. w.now) words.entry.now) ≡ None }
{
    let matches = parse_form(alloc, &form_for(name), words)?;
    line_at(alloc, name, &matches)
}

// A word by itself is known to be text, which of the words in a slice isn't known.
fn note_text(word: &str)
    ensures { IsUtf8 word.now }
{
    let _ = word;
}

fn note_texts(words: &[&str])
    ensures { AreText (map (λ w. w.now) words.now) }
{
    for word in words {
        note_text(word);
    }
}

/// The line that the words make: the first is the command, and behind it stand its names in their
/// order, with options before, between and after them.
///
/// `Words` comes where they make none. `Memory` comes only where the first of them names a command:
/// where clap says so, and for the names of words that make a line.
#[tactic(auto, unfolding(crate::specs::Line::line))]
pub fn read_words<'a>(alloc: Global, words: &'a [&'a str]) -> Result<Line, UsageFault>
    ensures ok { IfOk result (λ l. line (map (λ w. w.now) words.entry.now) ≡ Some l) }
    ensures ranges { IfOk result IsInRange }
    ensures words { result ≡ Err UsageFault.Words
        → line (map (λ w. w.now) words.entry.now) ≡ None }
    ensures memory { result ≡ Err UsageFault.Memory
        → NamesCommand (map (λ w. w.now) words.entry.now) }
{
    let [word, rest @ ..] = words else {
        return Err(UsageFault::Words);
    };
    let name = command_named(word).ok_or(UsageFault::Words)?;
    note_texts(rest);
    read_command(alloc, name, rest)
}
