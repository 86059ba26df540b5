ghost use Rattle.std.specs.Prelude.{◌≡◌, ◌≤◌, ◌+◌, true, length, option_copied, Ok, IfOk};
ghost use Rattle.mono_model.specs.Setup.{input_limit, is_setup};
ghost use Rattle.fast_cli.specs.Ranges.{HasRanges, IsInRange};
ghost use Rattle.fast_jobs.specs.Files.{files_of};
ghost use Rattle.fast_jobs.specs.Gives.{Gives};
ghost use Rattle.fast_jobs.specs.declared.job.SingleJob.{SingleJob as AnyRun};
ghost use Rattle.fast_jobs.specs.Job.{back_job, behind_machine, bytes_at, func_job, inorder_job};
ghost use Rattle.fast_jobs.specs.Job.{count_job, gdb_job, inorder_run_job, job_of, machine_at};
ghost use Rattle.fast_jobs.specs.Job.{pipeline_job, placed_setup, planned_run, run_job, sched_job};
ghost use Rattle.fast_jobs.specs.Job.{machine_of, profile_job, setup_on, stack_job, trace_job};
ghost use Rattle.fast_jobs.specs.Job.{watched_setup, with_rows, CanWatch};
ghost use Rattle.fast_jobs.specs.Job.{CanBegin, CanStart, sets_for, soak_setup};
ghost use Rattle.fast_jobs.specs.Reading.{AreWithin};

use crate::plan::Plan;
use crate::refusal::Refusal;
use crate::script::read_script;
use crate::setup::{inorder_setup, setup_for};
use crate::sweep_files::{SweepFiles, sweep_files};
use crate::timed_image::{placed_image, timed_image};
use back_debug::Script;
use fast_cli::{Line, Options, Pipeline, default_options};
use fsim_base::{Bytes, Text};
use gen_image::{soak_image, soak_params};
use insight_model::Pipeline as WatchedMachine;
use mono_model::Setup;
use report_text::Status;
use std::alloc::Global;
use text_rows::{MOST_PAGES, text_pages};

/// What is asked for, with all that it depends on.
#[derive(Debug, Drop)]
pub enum Job {
    /// One run.
    Single(SingleJob),
    /// The run on each of many machines to its end.
    Sweep(SweepFiles),
    /// A talk with a debugger, over a run that remembers so many steps.
    Gdb(Setup, u32),
}

/// What is asked for of one run.
#[derive(Debug, Drop)]
pub enum SingleJob {
    /// The sequential run to its end.
    Func(Setup),
    /// The run on the machine to its end.
    Run(Setup),
    /// The events of a plan, and the way to the next cycle boundary.
    Sched(Setup, Plan),
    /// The events of a plan on the in-order machine, and the way to its end.
    Inorder(Setup, Plan),
    /// The commands of a debugger's script, over a run that remembers so many steps.
    Back(Setup, u32, Script),
    /// The trace of a run on a machine, from one cycle up to another.
    Trace(Setup, WatchedMachine, u64, u64),
    /// The run on a machine to its end, and on what its cycles were spent.
    Stack(Setup, WatchedMachine),
    /// What each address cost in the run on a machine.
    Profile(Setup, WatchedMachine),
    /// How often the sequential run executes the instruction at each address.
    Count(Setup),
}

/// The job of a line with the bytes of its files and so many sets of devices, or the first refusal:
/// of the machine file, then of the image, then of the plan or the script.
pub fn job_of(alloc: Global, line: &Line, sets: usize, contents: Vec<Bytes>) -> Result<Job, Refusal>
    requires sets { 1 ≤ sets }
    requires ranges { IsInRange line.now }
    requires within { AreWithin (files_of line.now) contents.items }
    ensures job { Gives (job_of line.now sets contents.items) result }
    ensures can { IfOk result (λ job. CanBegin job) }
    ensures room { IfOk result (λ job. sets_for job ≤ sets) }
{
    let job = match line {
        Line::Func {
            machine,
            options,
            ..
        } => func_job(alloc, machine, options, contents)?,
        Line::Run {
            pipeline,
            options,
            ..
        } => pipeline_job(alloc, *pipeline, options, contents)?,
        Line::Sched { options, .. } => sched_job(alloc, options, contents)?,
        Line::Soak { seed } => soak_job(alloc, *seed)?,
        Line::Back {
            machine,
            history,
            options,
            ..
        } => back_job(alloc, *history, machine, options, contents)?,
        Line::Inorder {
            plan: Some(_),
            options,
            ..
        } => inorder_job(alloc, options, contents)?,
        Line::Inorder {
            plan: None,
            options,
            ..
        } => inorder_run_job(alloc, options, contents)?,
        Line::Sweep {
            machines,
            pipeline,
            options,
            ..
        } => {
            let files = sweep_files(alloc, machines, *pipeline, options, sets, contents)?;
            return Ok(Job::Sweep(files));
        }
        Line::Trace {
            from,
            to,
            pipeline,
            options,
            ..
        } => trace_job(alloc, *pipeline, *from, *to, options, contents)?,
        Line::Stack {
            pipeline,
            options,
            ..
        } => stack_job(alloc, *pipeline, options, contents)?,
        Line::Profile {
            pipeline,
            options,
            ..
        } => profile_job(alloc, *pipeline, options, contents)?,
        Line::Count {
            machine,
            options,
            ..
        } => count_job(alloc, machine, options, contents)?,
        Line::Gdb {
            machine,
            history,
            options,
            ..
        } => return gdb_job(alloc, *history, machine, options, contents),
    };
    Ok(Job::Single(job))
}

/// The setup of a run without a pipeline; the files are image, machine file, if the line names one,
/// and input.
#[tactic(auto, unfolding(crate::specs::Job::placed_setup))]
fn placed_setup(
    alloc: Global,
    machine: &Option<Text>,
    options: &Options,
    contents: Vec<Bytes>,
) -> Result<Setup, Refusal>
    requires ranges { HasRanges options.now }
    requires input { length (bytes_at contents.items (behind_machine machine.now)) ≤ input_limit }
    ensures setup { Gives (placed_setup machine.now options.now contents.items) result }
    ensures sound { IfOk result (λ setup. is_setup setup ≡ true) }
{
    let files = contents.as_slice();
    let loaded = placed_image(alloc, machine_at(machine, files), bytes_at(files, 0))?;
    let input = take_at(alloc, contents, behind_machine(machine));
    Ok(setup_for(loaded.params, options, loaded.image, input))
}

/// That run to its end.
#[tactic(auto, unfolding(crate::specs::Job::func_job))]
fn func_job(
    alloc: Global,
    machine: &Option<Text>,
    options: &Options,
    contents: Vec<Bytes>,
) -> Result<SingleJob, Refusal>
    requires ranges { HasRanges options.now }
    requires input { length (bytes_at contents.items (behind_machine machine.now)) ≤ input_limit }
    ensures job { Gives (func_job machine.now options.now contents.items) result }
    ensures can { IfOk result (λ job. CanStart job) }
{
    Ok(SingleJob::Func(placed_setup(alloc, machine, options, contents)?))
}

/// The same run, whose instructions are counted.
#[tactic(auto, unfolding(crate::specs::Job::count_job))]
fn count_job(
    alloc: Global,
    machine: &Option<Text>,
    options: &Options,
    contents: Vec<Bytes>,
) -> Result<SingleJob, Refusal>
    requires ranges { HasRanges options.now }
    requires input { length (bytes_at contents.items (behind_machine machine.now)) ≤ input_limit }
    ensures job { Gives (count_job machine.now options.now contents.items) result }
    ensures can { IfOk result (λ job. CanStart job) }
{
    let setup = with_rows(placed_setup(alloc, machine, options, contents)?)?;
    Ok(SingleJob::Count(setup))
}

/// The setup, if there is room for the rows of its text.
#[tactic(auto, unfolding(crate::specs::Job::with_rows))]
fn with_rows(setup: Setup) -> Result<Setup, Refusal>
    requires sound { is_setup setup ≡ true }
    ensures rows { Gives (with_rows setup) result }
    ensures same { IfOk result (λ s. s ≡ setup) }
{
    let pages = text_pages(&setup);
    if pages > MOST_PAGES {
        return Err(Refusal::new(Status::TooMuchText(pages)));
    }
    Ok(setup)
}

/// A talk with a debugger over that run, which remembers so many steps.
#[tactic(auto, unfolding(crate::specs::Job::gdb_job))]
fn gdb_job(
    alloc: Global,
    history: u32,
    machine: &Option<Text>,
    options: &Options,
    contents: Vec<Bytes>,
) -> Result<Job, Refusal>
    requires ranges { HasRanges options.now }
    requires input { length (bytes_at contents.items (behind_machine machine.now)) ≤ input_limit }
    ensures job { Gives (gdb_job history machine.now options.now contents.items) result }
    ensures can { IfOk result (λ job. CanBegin job) }
    ensures room { IfOk result (λ job. sets_for job ≤ 1) }
{
    Ok(Job::Gdb(placed_setup(alloc, machine, options, contents)?, history))
}

/// The bytes of the machine file, which stands behind the image, if the line names one.
fn machine_at<'a>(machine: &Option<Text>, files: &'a [Bytes]) -> Option<&'a [u8]>
    ensures bytes { option_copied result ≡ machine_at machine.now files.now }
{
    match machine {
        Some(_) => Some(bytes_at(files, 1)),
        None => None,
    }
}

/// The place of the file behind it.
fn behind_machine(machine: &Option<Text>) -> usize
    ensures place { result ≡ behind_machine machine.now }
    ensures few { result ≤ 2 }
{
    match machine {
        Some(_) => 2,
        None => 1,
    }
}

/// The run of an image on a pipeline; the files are image, machine file and input.
fn pipeline_job(
    alloc: Global,
    pipeline: Pipeline,
    options: &Options,
    contents: Vec<Bytes>,
) -> Result<SingleJob, Refusal>
    requires ranges { HasRanges options.now }
    requires input { length (bytes_at contents.items 2) ≤ input_limit }
    ensures job { Gives (pipeline_job pipeline options.now contents.items) result }
    ensures can { IfOk result (λ job. CanStart job) }
{
    match pipeline {
        Pipeline::Window => run_job(alloc, options, contents),
        Pipeline::Inorder => inorder_run_job(alloc, options, contents),
    }
}

/// The run of an image on a machine; the files are image, machine file and input.
#[tactic(auto, unfolding(crate::specs::Job::run_job))]
fn run_job(alloc: Global, options: &Options, contents: Vec<Bytes>) -> Result<SingleJob, Refusal>
    requires ranges { HasRanges options.now }
    requires input { length (bytes_at contents.items 2) ≤ input_limit }
    ensures job { Gives (run_job options.now contents.items) result }
    ensures can { IfOk result (λ job. CanStart job) }
{
    let files = contents.as_slice();
    let loaded = timed_image(alloc, bytes_at(files, 1), bytes_at(files, 0))?;
    let input = take_at(alloc, contents, 2);
    Ok(SingleJob::Run(setup_for(loaded.params, options, loaded.image, input)))
}

/// The machine that the words name.
fn machine_of(pipeline: Pipeline) -> WatchedMachine
    ensures machine { result ≡ machine_of pipeline }
{
    match pipeline {
        Pipeline::Window => WatchedMachine::Window,
        Pipeline::Inorder => WatchedMachine::Inorder,
    }
}

/// A setup for it.
fn setup_on(pipeline: Pipeline, setup: Setup) -> Setup
    requires sound { is_setup setup ≡ true }
    ensures setup { result ≡ setup_on pipeline setup }
    ensures can { CanWatch (machine_of pipeline) result }
    ensures sound { is_setup result ≡ true }
{
    match pipeline {
        Pipeline::Window => setup,
        Pipeline::Inorder => inorder_setup(setup),
    }
}

/// The setup of an image's run on a machine that is watched; the files are image, machine file and
/// input.
#[tactic(auto, unfolding(crate::specs::Job::watched_setup))]
fn watched_setup(
    alloc: Global,
    pipeline: Pipeline,
    options: &Options,
    contents: Vec<Bytes>,
) -> Result<Setup, Refusal>
    requires ranges { HasRanges options.now }
    requires input { length (bytes_at contents.items 2) ≤ input_limit }
    ensures setup { Gives (watched_setup pipeline options.now contents.items) result }
    ensures can { IfOk result (CanWatch (machine_of pipeline)) }
    ensures sound { IfOk result (λ setup. is_setup setup ≡ true) }
{
    let files = contents.as_slice();
    let loaded = timed_image(alloc, bytes_at(files, 1), bytes_at(files, 0))?;
    let input = take_at(alloc, contents, 2);
    let setup = setup_for(loaded.params, options, loaded.image, input);
    Ok(setup_on(pipeline, setup))
}

/// The trace of a run.
#[tactic(auto, unfolding(crate::specs::Job::trace_job))]
fn trace_job(
    alloc: Global,
    pipeline: Pipeline,
    from: u64,
    to: u64,
    options: &Options,
    contents: Vec<Bytes>,
) -> Result<SingleJob, Refusal>
    requires ranges { HasRanges options.now }
    requires input { length (bytes_at contents.items 2) ≤ input_limit }
    ensures job { Gives (trace_job pipeline from to options.now contents.items) result }
    ensures can { IfOk result (λ job. CanStart job) }
{
    let setup = watched_setup(alloc, pipeline, options, contents)?;
    Ok(SingleJob::Trace(setup, machine_of(pipeline), from, to))
}

/// The stack of a run.
#[tactic(auto, unfolding(crate::specs::Job::stack_job))]
fn stack_job(
    alloc: Global,
    pipeline: Pipeline,
    options: &Options,
    contents: Vec<Bytes>,
) -> Result<SingleJob, Refusal>
    requires ranges { HasRanges options.now }
    requires input { length (bytes_at contents.items 2) ≤ input_limit }
    ensures job { Gives (stack_job pipeline options.now contents.items) result }
    ensures can { IfOk result (λ job. CanStart job) }
{
    let setup = watched_setup(alloc, pipeline, options, contents)?;
    Ok(SingleJob::Stack(setup, machine_of(pipeline)))
}

/// The profile of a run.
#[tactic(auto, unfolding(crate::specs::Job::profile_job))]
fn profile_job(
    alloc: Global,
    pipeline: Pipeline,
    options: &Options,
    contents: Vec<Bytes>,
) -> Result<SingleJob, Refusal>
    requires ranges { HasRanges options.now }
    requires input { length (bytes_at contents.items 2) ≤ input_limit }
    ensures job { Gives (profile_job pipeline options.now contents.items) result }
    ensures can { IfOk result (λ job. CanStart job) }
{
    let setup = with_rows(watched_setup(alloc, pipeline, options, contents)?)?;
    Ok(SingleJob::Profile(setup, machine_of(pipeline)))
}

/// A run on a machine, and the plan for it.
#[derive(Drop)]
pub struct PlannedRun {
    setup: Setup,
    plan: Plan,
}

/// A plan for a run on a machine; the files are image, machine file, plan and input.
#[tactic(auto, unfolding(crate::specs::Job::planned_run))]
fn planned_run(
    alloc: Global,
    options: &Options,
    contents: Vec<Bytes>,
) -> Result<PlannedRun, Refusal>
    requires ranges { HasRanges options.now }
    requires input { length (bytes_at contents.items 3) ≤ input_limit }
    ensures planned { Gives (planned_run options.now contents.items) result }
    ensures sound { IfOk result (λ planned. is_setup planned.setup ≡ true) }
{
    let files = contents.as_slice();
    let loaded = timed_image(alloc, bytes_at(files, 1), bytes_at(files, 0))?;
    let plan = Plan::read(alloc, bytes_at(files, 2))?;
    let input = take_at(alloc, contents, 3);
    let setup = setup_for(loaded.params, options, loaded.image, input);
    Ok(PlannedRun { setup, plan })
}

/// The plan, and the way to the next cycle boundary.
#[tactic(auto, unfolding(crate::specs::Job::sched_job))]
fn sched_job(alloc: Global, options: &Options, contents: Vec<Bytes>) -> Result<SingleJob, Refusal>
    requires ranges { HasRanges options.now }
    requires input { length (bytes_at contents.items 3) ≤ input_limit }
    ensures job { Gives (sched_job options.now contents.items) result }
    ensures can { IfOk result (λ job. CanStart job) }
{
    let planned = planned_run(alloc, options, contents)?;
    Ok(SingleJob::Sched(planned.setup, planned.plan))
}

/// The plan on the in-order machine, and the way to its end.
#[tactic(auto, unfolding(crate::specs::Job::inorder_job))]
fn inorder_job(alloc: Global, options: &Options, contents: Vec<Bytes>) -> Result<SingleJob, Refusal>
    requires ranges { HasRanges options.now }
    requires input { length (bytes_at contents.items 3) ≤ input_limit }
    ensures job { Gives (inorder_job options.now contents.items) result }
    ensures can { IfOk result (λ job. CanStart job) }
{
    let planned = planned_run(alloc, options, contents)?;
    Ok(SingleJob::Inorder(inorder_setup(planned.setup), planned.plan))
}

/// The run of an image on the in-order machine, with the empty plan; the files are image, machine
/// file and input.
#[tactic(auto, unfolding(crate::specs::Job::inorder_run_job))]
fn inorder_run_job(
    alloc: Global,
    options: &Options,
    contents: Vec<Bytes>,
) -> Result<SingleJob, Refusal>
    requires ranges { HasRanges options.now }
    requires input { length (bytes_at contents.items 2) ≤ input_limit }
    ensures job { Gives (inorder_run_job options.now contents.items) result }
    ensures can { IfOk result (λ job. CanStart job) }
{
    let files = contents.as_slice();
    let loaded = timed_image(alloc, bytes_at(files, 1), bytes_at(files, 0))?;
    let input = take_at(alloc, contents, 2);
    let setup = setup_for(loaded.params, options, loaded.image, input);
    Ok(SingleJob::Inorder(inorder_setup(setup), Plan::empty(alloc)))
}

/// A debugger's script for the sequential run of an image; the files are image, machine file, if
/// the line names one, script and input.
#[tactic(auto, unfolding(crate::specs::Job::back_job))]
fn back_job(
    alloc: Global,
    history: u32,
    machine: &Option<Text>,
    options: &Options,
    contents: Vec<Bytes>,
) -> Result<SingleJob, Refusal>
    requires ranges { HasRanges options.now }
    requires input { length (bytes_at contents.items (behind_machine machine.now + 1))
        ≤ input_limit }
    ensures job { Gives (back_job history machine.now options.now contents.items) result }
    ensures can { IfOk result (λ job. CanStart job) }
{
    let files = contents.as_slice();
    let script_place = behind_machine(machine);
    let loaded = placed_image(alloc, machine_at(machine, files), bytes_at(files, 0))?;
    let script = read_script(alloc, bytes_at(files, script_place))?;
    let input = take_at(alloc, contents, script_place + 1);
    let setup = setup_for(loaded.params, options, loaded.image, input);
    Ok(SingleJob::Back(setup, history, script))
}

/// How many blocks the soak program has.
const SOAK_BLOCKS: u32 = 16_384;

/// The run of the soak program of a seed on its machine. It is made here, and no file is read.
#[tactic(auto, unfolding(crate::specs::Job::soak_setup))]
fn soak_job(alloc: Global, seed: u64) -> Result<SingleJob, Refusal>
    ensures job { Gives (Ok (AnyRun.Run (soak_setup seed))) result }
    ensures can { IfOk result (λ job. CanStart job) }
{
    let image = soak_image(alloc, seed, SOAK_BLOCKS)?;
    let input = Bytes::new(Vec::new(alloc));
    Ok(SingleJob::Run(setup_for(soak_params(), &default_options(), image, input)))
}

/// The bytes of the file at a place; none where there is no such file.
fn bytes_at(contents: &[Bytes], place: usize) -> &[u8]
    ensures bytes { result.now ≡ bytes_at contents.now place }
{
    match contents.get(place) {
        Some(bytes) => bytes.as_slice(),
        None => &[],
    }
}

/// The same, and all else is dropped.
fn take_at(alloc: Global, contents: Vec<Bytes>, place: usize) -> Bytes
    ensures bytes { result ≡ bytes_at contents.items place }
{
    let mut contents = contents;
    if place < contents.len() {
        contents.swap_remove(place)
    } else {
        Bytes::new(Vec::new(alloc))
    }
}
