ghost use Rattle.std.specs.Prelude.{◌≡◌, ◌≤◌, ◌<◌, ◌+◌, ◌^◌, ◌++◌, length, ℕ, Err, None, true};
ghost use Rattle.std.specs.Prelude.{IfOk, IfSome};
ghost use Rattle.back_debug.specs.Script.{IsAdded, address_in, command_in, commands_of};
ghost use Rattle.back_debug.specs.Script.{first_bad_line, is_bad, steps_in, value_in, worded};

use bstr::ByteSlice;
use mono_model::CYCLE_LIMIT;
use std::alloc::{AllocFailed, Global};
use std::marker::Model;

/// What a line of a script asks for.
#[derive(Clone, Copy, Debug, PartialEq, Eq)]
pub enum Command {
    /// `s N`: up to so many steps.
    Step(u64),
    /// `b N`: up to so many steps back.
    Back(u64),
    /// `t ADDR`: steps, one at least, up to the first that leaves the next address at this one.
    To(u32),
    /// `r`: the machine is shown.
    Show,
}

/// Why bytes are no script.
#[derive(Clone, Copy, Debug, PartialEq, Eq)]
pub enum ScriptFault {
    /// The first line that is no command and isn't empty, counted from 1.
    BadLine(u64),
    Memory,
}

impl<T: Drop> From<AllocFailed<T>> for ScriptFault {
    ghost use Rattle.back_debug.specs.declared.script.ScriptFault.TheVariants.{Memory};

    ghost from_gives = { λ _ fault. fault ≡ Memory };

    fn from(_fault: AllocFailed<T>) -> ScriptFault {
        ScriptFault::Memory
    }
}

/// The commands of a script, in their order.
#[derive(Debug, Drop)]
pub struct Script {
    commands: Vec<Command>,
}

impl Model for Script {
    ghost use Rattle.std.specs.Prelude.{List};
    ghost use Rattle.back_debug.specs.declared.script.Command.{Command};

    ghost Value = { List Command };

    ghost view = { λ script. script.commands.items };
}

impl Script {
    /// The script that the bytes are: a command a line. A line ends at a line feed, and a carriage
    /// return before it is no part of it; the last line may lack its line feed, and an empty line
    /// does nothing.
    ///
    /// # Errors
    ///
    /// The cases of `ScriptFault`. That of memory comes only where memory was wanted and not found.
    pub fn read(alloc: Global, bytes: &[u8]) -> Result<Script, ScriptFault>
        ensures good { IfOk result (λ script. first_bad_line bytes.now ≡ None) }
        ensures script { IfOk result (λ script. script ≡ commands_of bytes.now) }
        ensures bad { (line : ℕ) → result ≡ Err (ScriptFault.BadLine line)
            → first_bad_line bytes.now ≡ Some line }
    {
        let mut commands = Vec::new(alloc);
        for (place, line) in bytes.lines().enumerate() {
            add(&mut commands, place as u64, line)?;
        }
        Ok(Script { commands })
    }

    /// The commands.
    pub fn commands(&self) -> &[Command]
        ensures commands { result.now ≡ self.now }
    {
        self.commands.as_slice()
    }
}

/// Adds the command of the line at a place to the commands; an empty line has none.
fn add(commands: &mut Vec<Command>, place: u64, line: &[u8]) -> Result<(), ScriptFault>
    requires place { place < 2 ^ 63 }
    ensures added { IfOk result (λ _. IsAdded line.now commands.old.items commands.new.items) }
    ensures bad { (number : ℕ) → result ≡ Err (ScriptFault.BadLine number)
        → (is_bad line.now ≡ true) × (number ≡ place + 1) }
{
    if line.is_empty() {
        return Ok(());
    }
    match command_in(line) {
        Some(command) => {
            commands.push(command)?;
            Ok(())
        }
        None => Err(ScriptFault::BadLine(place + 1)),
    }
}

/// The command that a line is: `r`, or a letter, a space and a word.
fn command_in(line: &[u8]) -> Option<Command>
    ensures command { result ≡ command_in line.now }
{
    match line.len() {
        0 => None,
        1 if line[0] == b'r' => Some(Command::Show),
        1 => None,
        _ if line[1] == b' ' => worded(line[0], &line[2..]),
        _ => None,
    }
}

/// The command of a letter with a word behind it.
fn worded(letter: u8, word: &[u8]) -> Option<Command>
    ensures command { result ≡ worded letter word.now }
{
    match letter {
        b's' => Some(Command::Step(steps_in(word)?)),
        b'b' => Some(Command::Back(steps_in(word)?)),
        b't' => Some(Command::To(address_in(word)?)),
        _ => None,
    }
}

/// How many steps a word asks for, in one to twenty decimal digits: at most as many as a run makes.
fn steps_in(word: &[u8]) -> Option<u64>
    ensures steps { result ≡ steps_in word.now }
{
    if word.is_empty() || 20 < word.len() {
        return None;
    }
    match value_in(10, word) {
        Some(steps) if 1 <= steps && steps <= u128::from(CYCLE_LIMIT) => Some(steps as u64),
        _ => None,
    }
}

/// The address that a word writes, in eight hexadecimal digits.
fn address_in(word: &[u8]) -> Option<u32>
    ensures address { result ≡ address_in word.now }
{
    if word.len() != 8 {
        return None;
    }
    match value_in(16, word) {
        Some(address) => Some(address as u32),
        None => None,
    }
}

/// What the digits of a word write; none where a byte is no digit.
fn value_in(radix: u32, word: &[u8]) -> Option<u128>
    requires radix { (2 ≤ radix) × (radix ≤ 16) }
    requires len { length word.now ≤ 20 }
    ensures value { result ≡ value_in radix word.now }
    ensures bound { IfSome result (λ value. value < radix ^ length word.now) }
{
    let mut value = 0;
    for byte in word {
        let digit = char::from(*byte).to_digit(radix)?;
        value = value * u128::from(radix) + u128::from(digit);
    }
    Some(value)
}
