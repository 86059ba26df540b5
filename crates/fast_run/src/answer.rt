ghost use Rattle.std.specs.Prelude.{◌≡◌, ◌≤◌, ◌/◌, true, false, map, vec_len, Some};
ghost use Rattle.device_bus.specs.Bus.{AreSets};
ghost use Rattle.fast_cli.specs.Line.{line};
ghost use Rattle.fast_cli.specs.Ranges.{IsInRange};
ghost use Rattle.report_text.specs.FaultText.{status_number};
ghost use Rattle.fast_jobs.specs.Call.{Hearing, IsUnheard, hearing_of, reading_of, writing_of};
ghost use Rattle.fast_jobs.specs.Job.{is_still};
ghost use Rattle.fast_run.specs.Answer.{IsAnswer};
ghost use Rattle.fast_run.specs.Program.{asks_code, code_number, exit_number};
ghost use Rattle.fast_run.specs.Settled.{IsComplete, IsSettled};

use device_bus::{Device, SET_SIZE};
use fast_cli::{Line, Pipeline, UsageFault, read_words};
use fast_jobs::{Job, Refusal, first_set, open, run, run_gdb, run_in_threads, tell_want_of_memory};
use fsim_ports::{Files, Gate, Sink, Source};
use report_text::Status;
use std::alloc::Global;
use std::sync::Wait;
use std::thread::Threads;

/// An answer, and the number with which the process is to end.
#[derive(Debug, Drop)]
pub struct Answer {
    pub status: Status,
    pub number: u8,
}

impl Answer {
    /// The answer with its own number.
    pub fn plain(status: Status) -> Answer
        ensures status { result.status ≡ status }
        ensures number { result.number ≡ status_number status }
    {
        let number = status.number();
        Answer { status, number }
    }
}

/// The answer to the words, with the files, the sink and 1 to 64 sets of devices: console,
/// timer, finisher, in this order. A sweep takes a set for each of its machines, every other line
/// the first. A side that has a thread of its own calls its turn of the gate before each of its
/// turns.
///
/// It writes output and report of what the words ask for, or the line of its answer. The words
/// leave out the program's name. Where what the files hold is told, and no fault was counted, words
/// and files have one answer, but for want of memory.
pub fn fast_main<
    R: Threads + Wait + Sync,
    F: Files,
    S: Source,
    K: Sink,
    G: Gate + Sync,
    D: Device + Send,
>(
    rt: &R,
    alloc: Global,
    words: &[&str],
    files: &mut F,
    source: &mut S,
    sink: &mut K,
    devices: Vec<D>,
    gate: &G,
) -> Answer
    requires sets { AreSets (vec_len devices / 3) (map D.kind devices.items) }
    ensures told { F.told files.new ≡ F.told files.old }
    ensures files { F.faults files.old ≤ F.faults files.new }
    ensures source { S.faults source.old ≤ S.faults source.new }
    ensures sink { K.faults sink.old ≤ K.faults sink.new }
    ensures answer { IsAnswer (line (map (λ word. word.now) words.now)) (vec_len devices / 3)
        (reading_of F.told F.faults files.old files.new)
        (hearing_of S.heard S.faults source.old source.new)
        (writing_of K.written K.faults sink.old sink.new) result.status }
    ensures settled { IsSettled (line (map (λ word. word.now) words.now)) (vec_len devices / 3)
        (reading_of F.told F.faults files.old files.new) result.status }
    ensures complete { IsComplete (line (map (λ word. word.now) words.now)) (vec_len devices / 3)
        (reading_of F.told F.faults files.old files.new)
        (hearing_of S.heard S.faults source.old source.new)
        (writing_of K.written K.faults sink.old sink.new) result.status }
    ensures number { result.number
        ≡ exit_number (line (map (λ word. word.now) words.now)) result.status }
{
    answer_or_usage(rt, alloc, words, files, source, sink, devices, gate)
}

/// The answer to the words: that to their line, or the usage.
#[tactic(auto, using(crate::proofs::Answers::closing_answers))]
fn answer_or_usage<
    R: Threads + Wait + Sync,
    F: Files,
    S: Source,
    K: Sink,
    G: Gate + Sync,
    D: Device + Send,
>(
    rt: &R,
    alloc: Global,
    words: &[&str],
    files: &mut F,
    source: &mut S,
    sink: &mut K,
    devices: Vec<D>,
    gate: &G,
) -> Answer
    requires sets { AreSets (vec_len devices / 3) (map D.kind devices.items) }
    ensures told { F.told files.new ≡ F.told files.old }
    ensures files { F.faults files.old ≤ F.faults files.new }
    ensures source { S.faults source.old ≤ S.faults source.new }
    ensures sink { K.faults sink.old ≤ K.faults sink.new }
    ensures answer { IsAnswer (line (map (λ word. word.now) words.now)) (vec_len devices / 3)
        (reading_of F.told F.faults files.old files.new)
        (hearing_of S.heard S.faults source.old source.new)
        (writing_of K.written K.faults sink.old sink.new) result.status }
    ensures number { result.number
        ≡ exit_number (line (map (λ word. word.now) words.now)) result.status }
{
    let line = match read_words(alloc, words) {
        Ok(line) => line,
        Err(UsageFault::Words) => return Answer::plain(Refusal::new(Status::Usage).tell(sink)),
        Err(UsageFault::Memory) => return Answer::plain(tell_want_of_memory(sink)),
    };
    let status = answer_line(rt, alloc, &line, files, source, sink, devices, gate);
    let number = exit_number(&line, &status);
    Answer { status, number }
}

/// The answer to a line.
fn answer_line<
    R: Threads + Wait + Sync,
    F: Files,
    S: Source,
    K: Sink,
    G: Gate + Sync,
    D: Device + Send,
>(
    rt: &R,
    alloc: Global,
    line: &Line,
    files: &mut F,
    source: &mut S,
    sink: &mut K,
    devices: Vec<D>,
    gate: &G,
) -> Status
    requires ranges { IsInRange line.now }
    requires sets { AreSets (vec_len devices / 3) (map D.kind devices.items) }
    ensures told { F.told files.new ≡ F.told files.old }
    ensures files { F.faults files.old ≤ F.faults files.new }
    ensures source { S.faults source.old ≤ S.faults source.new }
    ensures sink { K.faults sink.old ≤ K.faults sink.new }
    ensures answer { IsAnswer (Some line.now) (vec_len devices / 3)
        (reading_of F.told F.faults files.old files.new)
        (hearing_of S.heard S.faults source.old source.new)
        (writing_of K.written K.faults sink.old sink.new) result }
{
    if is_still(line) {
        fast_still(alloc, line, files, source, sink, devices)
    } else {
        answer_in_threads(rt, alloc, line, files, sink, devices, gate)
    }
}

/// The number that ends the process.
fn exit_number(line: &Line, status: &Status) -> u8
    ensures number { result ≡ exit_number (Some line.now) status.now }
{
    if asks_code(line) {
        code_number(status)
    } else {
        status.number()
    }
}

/// Whether a line asks for the program's code.
fn asks_code(line: &Line) -> bool
    ensures asks { result ≡ asks_code (Some line.now) }
{
    match line {
        Line::Func { options, .. }
        | Line::Run { options, .. }
        | Line::Sched { options, .. }
        | Line::Back { options, .. }
        | Line::Inorder { options, .. }
        | Line::Sweep { options, .. }
        | Line::Trace { options, .. }
        | Line::Stack { options, .. }
        | Line::Profile { options, .. }
        | Line::Count { options, .. }
        | Line::Gdb { options, .. } => options.exit_code,
        Line::Soak { .. } => false,
    }
}

/// The program's code modulo 256, or the number of an answer that has none.
fn code_number(status: &Status) -> u8
    ensures number { result ≡ code_number status.now }
{
    match status {
        Status::Fail(code) => (*code % 256) as u8,
        status => status.number(),
    }
}

/// Whether a line is played on one thread.
fn is_still(line: &Line) -> bool
    ensures still { result ≡ is_still line.now }
{
    match line {
        Line::Func { .. } | Line::Sched { .. } | Line::Back { .. } | Line::Inorder { .. } => true,
        Line::Trace { .. } | Line::Stack { .. } | Line::Profile { .. } => true,
        Line::Count { .. } | Line::Gdb { .. } => true,
        Line::Run {
            pipeline: Pipeline::Window,
            threads,
            ..
        } => *threads == 1,
        Line::Run {
            pipeline: Pipeline::Inorder,
            ..
        } => true,
        Line::Soak { .. } | Line::Sweep { .. } => false,
    }
}

/// The answer to a line that is played on one thread, with the files, the sink and sets of
/// devices, as [`fast_main`] gives it once the words were read.
pub fn fast_still<F: Files, S: Source, K: Sink, D: Device>(
    alloc: Global,
    line: &Line,
    files: &mut F,
    source: &mut S,
    sink: &mut K,
    devices: Vec<D>,
) -> Status
    requires still { is_still line.now ≡ true }
    requires ranges { IsInRange line.now }
    requires sets { AreSets (vec_len devices / 3) (map D.kind devices.items) }
    ensures told { F.told files.new ≡ F.told files.old }
    ensures files { F.faults files.old ≤ F.faults files.new }
    ensures source { S.faults source.old ≤ S.faults source.new }
    ensures sink { K.faults sink.old ≤ K.faults sink.new }
    ensures answer { IsAnswer (Some line.now) (vec_len devices / 3)
        (reading_of F.told F.faults files.old files.new)
        (hearing_of S.heard S.faults source.old source.new)
        (writing_of K.written K.faults sink.old sink.new) result }
    ensures settled { IsSettled (Some line.now) (vec_len devices / 3)
        (reading_of F.told F.faults files.old files.new) result }
    ensures complete { IsComplete (Some line.now) (vec_len devices / 3)
        (reading_of F.told F.faults files.old files.new)
        (hearing_of S.heard S.faults source.old source.new)
        (writing_of K.written K.faults sink.old sink.new) result }
{
    match open(alloc, line, devices.len() / SET_SIZE, files) {
        Ok(Job::Single(job)) => run(alloc, &job, first_set(devices), sink),
        Ok(Job::Gdb(setup, history)) => {
            run_gdb(alloc, &setup, history, first_set(devices), source, sink)
        }
        // The line isn't a sweep's, whose runs have threads of their own.
        Ok(Job::Sweep(_)) => unreachable!(),
        Err(refusal) => refusal.tell(sink),
    }
}

/// The answer to a line that asks for more threads.
fn answer_in_threads<R: Threads + Wait + Sync, F: Files, K: Sink, G: Gate + Sync, D: Device + Send>(
    rt: &R,
    alloc: Global,
    line: &Line,
    files: &mut F,
    sink: &mut K,
    devices: Vec<D>,
    gate: &G,
) -> Status
    requires moves { is_still line.now ≡ false }
    requires ranges { IsInRange line.now }
    requires sets { AreSets (vec_len devices / 3) (map D.kind devices.items) }
    ensures told { F.told files.new ≡ F.told files.old }
    ensures files { F.faults files.old ≤ F.faults files.new }
    ensures sink { K.faults sink.old ≤ K.faults sink.new }
    ensures answer { (hearing : Hearing) → IsUnheard hearing
        → IsAnswer (Some line.now) (vec_len devices / 3)
        (reading_of F.told F.faults files.old files.new) hearing
        (writing_of K.written K.faults sink.old sink.new) result }
{
    match open(alloc, line, devices.len() / SET_SIZE, files) {
        Ok(job) => run_in_threads(rt, alloc, &job, devices, sink, gate),
        Err(refusal) => refusal.tell(sink),
    }
}
