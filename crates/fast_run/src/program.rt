ghost use Rattle.std.specs.Prelude.{◌≡◌, ◌≤◌, map, drop, string_bytes, IfOk, OnErr};
ghost use Rattle.std.specs.IoError.{error_kind};
ghost use Rattle.std.specs.Vec.Iter.{into_iter_items};
ghost use Rattle.std.specs.Process.{exit_status};
ghost use Rattle.fast_cli.specs.Line.{line};
ghost use Rattle.fast_jobs.specs.Call.{hearing_of, reading_of, writing_of};
ghost use Rattle.fast_run.specs.Answer.{IsAnswer};
ghost use Rattle.fast_run.specs.Program.{IsNoText, exit_number, line_in, status_of_error};

use crate::answer::{Answer, fast_main};
use device_bus::{AnyDevice, Console, Finisher, SET_SIZE, SETS_LIMIT, Timer, sets_in_order};
use fast_jobs::{Refusal, tell_want_of_memory};
use fsim_ports::{Files, HostFiles, HostSink, HostSource, QuietGate, Sink, Source};
use report_text::Status;
use std::alloc::{AllocError, Global};
use std::io::ErrorKind;
use std::process::ExitCode;
use std::sync::Wait;
use std::thread::Threads;
use std::{env, io};

/// Runs the program with the arguments, files and standard output of the host, and with what starts
/// threads.
pub fn run_host<R: Threads + Wait + Sync>(rt: &HostRuntime, threads: &R) -> ExitCode {
    let alloc = rt.alloc();
    let mut files = HostFiles::new(alloc, rt);
    let mut source = HostSource::new(rt.stdin());
    let mut sink = HostSink::new(rt);
    let answer = answer_arguments(
        threads,
        alloc,
        arguments(rt),
        &mut files,
        &mut source,
        &mut sink,
    );
    exit_code(&answer)
}

/// The arguments of the process, of which the first is the program's name.
fn arguments(rt: &HostRuntime) -> io::Result<Vec<String>> {
    Ok(collected(rt.alloc(), env::args(rt)?)?)
}

/// The arguments as a list: all of them, in their order.
fn collected(alloc: Global, arguments: env::Args) -> Result<Vec<String>, AllocError>
    ensures all { IfOk result (λ list. list.items ≡ into_iter_items arguments) }
{
    arguments.collect(alloc)
}

/// The exit status that tells an answer.
fn exit_code(answer: &Answer) -> ExitCode
    ensures number { exit_status result ≡ answer.now.number }
{
    ExitCode::from(answer.number)
}

/// The answer to the arguments of the process, of which the first is the program's name. Where they
/// could not be had, since one of them is no text, they are no line.
#[tactic(auto, using(crate::proofs::Answers::closing_answers))]
fn answer_arguments<R: Threads + Wait + Sync, F: Files, S: Source, K: Sink>(
    rt: &R,
    alloc: Global,
    arguments: io::Result<Vec<String>>,
    files: &mut F,
    source: &mut S,
    sink: &mut K,
) -> Answer
    ensures told { F.told files.new ≡ F.told files.old }
    ensures files { F.faults files.old ≤ F.faults files.new }
    ensures source { S.faults source.old ≤ S.faults source.new }
    ensures sink { K.faults sink.old ≤ K.faults sink.new }
    ensures answer { IsAnswer (line_in arguments) 64
        (reading_of F.told F.faults files.old files.new)
        (hearing_of S.heard S.faults source.old source.new)
        (writing_of K.written K.faults sink.old sink.new) result.status }
    ensures number { result.number ≡ exit_number (line_in arguments) result.status }
    ensures no_text { IsNoText arguments result.status }
{
    let arguments = match arguments {
        Ok(arguments) => arguments,
        Err(error) => return Answer::plain(refusal_of_error(&error).tell(sink)),
    };
    match answer_texts(
        rt,
        alloc,
        words_of(arguments.as_slice()),
        files,
        source,
        sink,
    ) {
        Ok(answer) => answer,
        Err(AllocError) => Answer::plain(tell_want_of_memory(sink)),
    }
}

/// The answer where the arguments could not be had.
fn refusal_of_error(error: &io::Error) -> Refusal
    ensures status { result ≡ status_of_error (error_kind error.now) }
{
    match error.kind() {
        ErrorKind::OutOfMemory => Refusal::new(Status::Memory),
        _ => Refusal::new(Status::Usage),
    }
}

/// The words among the arguments: those behind the program's name.
fn words_of(arguments: &[String]) -> &[String]
    ensures words { result.now ≡ drop 1 arguments.now }
{
    arguments.get(1..).unwrap_or(&[])
}

/// The answer to words that are owned. Where no memory is found for them or for the devices, files
/// and sink are as they were.
pub fn answer_texts<R: Threads + Wait + Sync, F: Files, S: Source, K: Sink>(
    rt: &R,
    alloc: Global,
    texts: &[String],
    files: &mut F,
    source: &mut S,
    sink: &mut K,
) -> Result<Answer, AllocError>
    ensures told { F.told files.new ≡ F.told files.old }
    ensures files { F.faults files.old ≤ F.faults files.new }
    ensures source { S.faults source.old ≤ S.faults source.new }
    ensures sink { K.faults sink.old ≤ K.faults sink.new }
    ensures answer { IfOk result (λ answer. IsAnswer (line (map string_bytes texts.now)) 64
        (reading_of F.told F.faults files.old files.new)
        (hearing_of S.heard S.faults source.old source.new)
        (writing_of K.written K.faults sink.old sink.new) answer.status) }
    ensures number { IfOk result (λ answer.
        answer.number ≡ exit_number (line (map string_bytes texts.now)) answer.status) }
    ensures untouched { OnErr result ((files.new ≡ files.old)
        × (source.new ≡ source.old) × (sink.new ≡ sink.old)) }
{
    let mut words = Vec::new(alloc);
    for text in texts {
        words.push(text.as_str())?;
    }
    answer_words(rt, alloc, words.as_slice(), files, source, sink)
}

/// The answer to the words, with devices of its own. Where no memory is found for these, files and
/// sink are as they were.
fn answer_words<R: Threads + Wait + Sync, F: Files, S: Source, K: Sink>(
    rt: &R,
    alloc: Global,
    words: &[&str],
    files: &mut F,
    source: &mut S,
    sink: &mut K,
) -> Result<Answer, AllocError>
    ensures told { F.told files.new ≡ F.told files.old }
    ensures files { F.faults files.old ≤ F.faults files.new }
    ensures source { S.faults source.old ≤ S.faults source.new }
    ensures sink { K.faults sink.old ≤ K.faults sink.new }
    ensures answer { IfOk result (λ answer. IsAnswer (line (map (λ word. word.now) words.now)) 64
        (reading_of F.told F.faults files.old files.new)
        (hearing_of S.heard S.faults source.old source.new)
        (writing_of K.written K.faults sink.old sink.new) answer.status) }
    ensures number { IfOk result (λ answer.
        answer.number ≡ exit_number (line (map (λ word. word.now) words.now)) answer.status) }
    ensures untouched { OnErr result ((files.new ≡ files.old)
        × (source.new ≡ source.old) × (sink.new ≡ sink.old)) }
{
    let mut devices = Vec::new(alloc);
    // As many sets as a sweep can name machines.
    for _ in 0..SETS_LIMIT {
        let Ok(console) = Console::new(alloc) else {
            return Err(AllocError);
        };
        devices.push(AnyDevice::Console(console))?;
        devices.push(AnyDevice::Timer(Timer::new()))?;
        devices.push(AnyDevice::Finisher(Finisher::new()))?;
    }
    // They are in order. The test tells the condition of the call below.
    if devices.len() != SET_SIZE * SETS_LIMIT || !sets_in_order(devices.as_slice()) {
        return Err(AllocError);
    }
    Ok(fast_main(rt, alloc, words, files, source, sink, devices, &QuietGate))
}
