//! The words of the command line, cut at each space.
use super::{SMALLEST_PASS, check, image_of};
use crate::program::answer_texts;
use fsim_ports::{MemoryFiles, MemorySink, MemorySource};
use std::test::Fail;

const USAGE: &str = concat!(
    "fast: usage: fast func IMAGE, run IMAGE MACHINE, sched IMAGE MACHINE PLAN, soak SEED, ",
    "back IMAGE SCRIPT, inorder IMAGE MACHINE PLAN, sweep IMAGE MACHINES, ",
    "trace IMAGE MACHINE, stack IMAGE MACHINE, profile IMAGE MACHINE, count IMAGE, gdb IMAGE\n",
);

const REFUSED: [&str; 50] = [
    "",
    "--help",
    "walk a",
    "func",
    "func ",
    "func -x",
    "func a b",
    "run a",
    "run a m p",
    "sched a m",
    "inorder a m p q",
    "run --help",
    "run  m",
    "run a m --ring 0",
    "run a m --ring 65537",
    "run a m --ring 8 --ring 8",
    "run a m --ring 000000000000000000008",
    "run a m --ring=",
    "run a m --ring +8",
    "run a m --ring -8",
    "run a m --threads 0",
    "run a m --threads 3",
    "run a m --threads 1 --threads=1",
    "run a m --pipeline lane",
    "func a --pipeline inorder",
    "sched a m p --threads 1",
    "soak 7 --threads 1",
    "soak 7 --cycles 5",
    "soak 18446744073709551616",
    "soak -1",
    "sweep a",
    "gdb",
    "gdb a b",
    "gdb a --history 1048577",
    "func a --ring 8",
    "func a --cycles 0",
    "func a --machine=",
    "func a --exit-code=1",
    "func a --exit-code --exit-code",
    "back a s --exit-code",
    "count a --exit-code",
    "gdb a --exit-code",
    "run a m --machine m",
    "func a --cycles 5 --cycles 5",
    "func a --output 16777217",
    "func a --input=",
    "func a --input -x",
    "func a --cycles --",
    "func a --cycles -5",
    "--cycles 5 func a",
];

/// Lines by the file that they lack.
const LINES: [(&str, &str); 21] = [
    ("run n m", "fast: missing: image\n"),
    ("run a n", "fast: missing: machine\n"),
    ("run --ring=8 a n", "fast: missing: machine\n"),
    ("run --ring 8 a n", "fast: missing: machine\n"),
    ("run a --ring 8 n", "fast: missing: machine\n"),
    (
        "run a n --ring 00000000000000000008",
        "fast: missing: machine\n",
    ),
    ("run -- --ring -h", "fast: missing: image\n"),
    ("run - -", "fast: missing: image\n"),
    ("run a n --threads=2", "fast: missing: machine\n"),
    ("run a n --pipeline=inorder", "fast: missing: machine\n"),
    ("func a --input -", "fast: missing: input\n"),
    ("func a --input=-x", "fast: missing: input\n"),
    ("sched a n p", "fast: missing: machine\n"),
    ("sched a m p --input i", "fast: missing: plan\n"),
    ("sched a m a --input i", "fast: missing: input\n"),
    ("back a s --history 2", "fast: missing: script\n"),
    ("back a m --input i", "fast: missing: input\n"),
    ("inorder a m p", "fast: missing: plan\n"),
    ("inorder a m --input i", "fast: missing: input\n"),
    ("gdb a --machine n", "fast: missing: machine\n"),
    ("gdb a --input i", "fast: missing: input\n"),
];

fn refused() -> &'static [&'static str] {
    &REFUSED
}

#[test]
fn refused_words_are_answered_by_the_usage(rt: HostRuntime) -> Result<(), Fail> {
    let alloc = rt.alloc();
    let mut files = MemoryFiles::new(alloc);
    for text in refused() {
        check(&rt, alloc, text, &mut files, 10, USAGE)?;
    }
    Ok(())
}

#[test]
fn no_words_are_answered_by_the_usage(rt: HostRuntime) -> Result<(), Fail> {
    let alloc = rt.alloc();
    let mut files = MemoryFiles::new(alloc);
    let mut sink = MemorySink::new(alloc, 4096)?;
    let mut source = MemorySource::new(alloc, b"", 1)?;
    let answer = answer_texts(&rt, alloc, &[], &mut files, &mut source, &mut sink)?;
    assert_eq!(rt; (answer.number, sink.bytes()), (10, USAGE.as_bytes()));
    Ok(())
}

fn lines() -> &'static [(&'static str, &'static str)] {
    &LINES
}

#[test]
fn first_file_that_is_lacking_is_told(rt: HostRuntime) -> Result<(), Fail> {
    let alloc = rt.alloc();
    for &(text, answer) in lines() {
        let mut files = MemoryFiles::new(alloc);
        files.add("a", image_of(alloc, SMALLEST_PASS)?.as_slice())?;
        files.add("m", b"")?;
        check(&rt, alloc, text, &mut files, 13, answer)?;
    }
    Ok(())
}
