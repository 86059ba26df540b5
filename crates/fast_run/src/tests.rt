//! What no clause says: that calls succeed where memory is ample, and the texts as their readers
//! see them. A function without a contract hands out each table, since a test that sees its rows
//! takes a minute more to prove.
mod counting;
mod faults;
mod gates;
mod hostile;
mod insight;
mod journal;
mod programs;
mod reports;
mod sessions;
mod sweeps;
mod talks;
mod words;

use crate::answer::fast_main;
use crate::program::answer_texts;
use device_bus::{Device, Finisher, Timer, sets_in_order};
use fsim_ports::{Gate, MemoryFiles, MemorySink, MemorySource};
use std::alloc::Global;
use std::process::Abort;
use std::sync::Wait;
use std::test::Fail;
use std::thread::Threads;

/// The front of an image whose one segment, executable, lies at 0x80000000 and is entered there.
/// Bytes 68 to 75 have its size twice.
const FRONT: [u8; 84] = [
    0x7f, 0x45, 0x4c, 0x46, 0x01, 0x01, 0x01, 0x00, 0x00, 0x00, 0x00, 0x00, 0x00, 0x00, 0x00, 0x00,
    0x02, 0x00, 0xf3, 0x00, 0x01, 0x00, 0x00, 0x00, 0x00, 0x00, 0x00, 0x80, 0x34, 0x00, 0x00, 0x00,
    0x00, 0x00, 0x00, 0x00, 0x00, 0x00, 0x00, 0x00, 0x34, 0x00, 0x20, 0x00, 0x01, 0x00, 0x00, 0x00,
    0x00, 0x00, 0x00, 0x00, 0x01, 0x00, 0x00, 0x00, 0x54, 0x00, 0x00, 0x00, 0x00, 0x00, 0x00, 0x80,
    0x00, 0x00, 0x00, 0x80, 0x00, 0x00, 0x00, 0x00, 0x00, 0x00, 0x00, 0x00, 0x05, 0x00, 0x00, 0x00,
    0x04, 0x00, 0x00, 0x00,
];

/// LUI x5, 0x100; LUI x6, 5; ADDI x6, x6, 0x555; SW x6, 0(x5).
const SMALLEST_PASS: &str = "001002b7 00005337 55530313 0062a023";

/// The image of a program. Its words are in hexadecimal, with a space between each two.
fn image_of(alloc: Global, words: &str) -> Result<Vec<u8>, Fail> {
    let mut program = Vec::new(alloc);
    put_words(&mut program, words)?;
    let size = u32::try_from(program.len()).unwrap_or(0).to_le_bytes();
    let mut front = FRONT;
    front[68..72].copy_from_slice(&size);
    front[72..76].copy_from_slice(&size);
    let mut image = front.to_vec(alloc)?;
    image.extend_from_slice(program.as_slice())?;
    Ok(image)
}

/// Puts words behind an image.
fn put_words(image: &mut Vec<u8>, words: &str) -> Result<(), Fail> {
    for word in words.split(' ') {
        let word = u32::from_str_radix(word, 16).unwrap_or(0);
        image.extend_from_slice(&word.to_le_bytes())?;
    }
    Ok(())
}

/// The words of a line, which is cut at each space, as `main` has them.
fn texts_of(alloc: Global, line: &str) -> Result<Vec<String>, Fail> {
    let mut texts = Vec::new(alloc);
    for word in line.split(' ') {
        texts.push(String::from_str(alloc, word)?)?;
    }
    Ok(texts)
}

/// The words of a line, which is cut at each space.
fn words_of(alloc: Global, line: &str) -> Result<Vec<&str>, Fail> {
    Ok(line.split(' ').collect(alloc)?)
}

/// The exit status that answers a line. It has no contract, so that the tests see no more of the
/// answer than they compare.
fn answer<R: Threads + Wait + Sync + Abort>(
    rt: &R,
    alloc: Global,
    line: &str,
    files: &mut MemoryFiles,
    sink: &mut MemorySink,
) -> Result<u8, Fail> {
    let mut source = MemorySource::new(alloc, b"", 1)?;
    answer_to(rt, alloc, line, files, &mut source, sink)
}

/// The same with this standard input.
fn answer_to<R: Threads + Wait + Sync + Abort>(
    rt: &R,
    alloc: Global,
    line: &str,
    files: &mut MemoryFiles,
    source: &mut MemorySource,
    sink: &mut MemorySink,
) -> Result<u8, Fail> {
    let texts = texts_of(alloc, line)?;
    let answer = answer_texts(rt, alloc, texts.as_slice(), files, source, sink)?;
    Ok(answer.number)
}

/// The same with these devices and this gate.
fn answer_with<R: Threads + Wait + Sync + Abort, G: Gate + Sync>(
    rt: &R,
    alloc: Global,
    line: &str,
    files: &mut MemoryFiles,
    sink: &mut MemorySink,
    devices: Vec<Box<dyn Device + Send>>,
    gate: &G,
) -> Result<u8, Fail> {
    let words = words_of(alloc, line)?;
    assert!(rt; sets_in_order(devices.as_slice()));
    let mut source = MemorySource::new(alloc, b"", 1)?;
    let answer = fast_main(
        rt,
        alloc,
        words.as_slice(),
        files,
        &mut source,
        sink,
        devices,
        gate,
    );
    Ok(answer.number)
}

/// A set of devices with this console.
fn set_with(
    alloc: Global,
    console: Box<dyn Device + Send>,
) -> Result<Vec<Box<dyn Device + Send>>, Fail> {
    let mut devices: Vec<Box<dyn Device + Send>> = Vec::new(alloc);
    devices.push(console)?;
    devices.push(Box::new(alloc, Timer::new())?)?;
    devices.push(Box::new(alloc, Finisher::new())?)?;
    Ok(devices)
}

/// Answers a line, and compares status and text.
fn check<R: Threads + Wait + Sync + Abort>(
    rt: &R,
    alloc: Global,
    line: &str,
    files: &mut MemoryFiles,
    number: u8,
    text: &str,
) -> Result<(), Fail> {
    let mut sink = MemorySink::new(alloc, 4096)?;
    let answered = answer(rt, alloc, line, files, &mut sink)?;
    assert_eq!(rt; answered, number, "{line}");
    assert_eq!(rt; sink.bytes(), text.as_bytes(), "{line}");
    Ok(())
}
