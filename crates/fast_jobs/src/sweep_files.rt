//! What a sweep has read.
ghost use Rattle.std.specs.Prelude.{◌≡◌, ◌+◌, ◌≤◌, drop, length, IfOk, OnOk};
ghost use Rattle.std.specs.Vec.Iter.{into_iter_items};
ghost use Rattle.mono_model.specs.Setup.{input_limit};
ghost use Rattle.fast_cli.specs.Ranges.{HasRanges};
ghost use Rattle.fast_jobs.specs.Gives.{Gives};
ghost use Rattle.fast_jobs.specs.Job.{CanSweep, bytes_at};
ghost use Rattle.fast_jobs.specs.SweepFiles.{limits_of, named_machines, swept};

use crate::files::copy_of;
use crate::grow::push;
use crate::refusal::Refusal;
use fast_cli::{Options, Pipeline, Texts};
use fsim_base::{Bytes, NoMemory, Text};
use report_text::Status;
use std::alloc::Global;
use std::marker::Model;
use std::vec::IntoIter;

/// A machine file's name, and its bytes.
#[derive(Debug, Drop)]
pub struct NamedMachine {
    pub name: Text,
    pub bytes: Bytes,
}

/// A list of machine files that contracts see as the list alone.
#[derive(Debug, Drop)]
pub struct Machines {
    list: Vec<NamedMachine>,
}

impl Model for Machines {
    ghost use Rattle.std.specs.Prelude.{List};
    ghost use Rattle.fast_jobs.specs.declared.sweep_files.NamedMachine.{NamedMachine};

    ghost Value = { List NamedMachine };

    ghost view = { λ machines. machines.list.items };
}

impl Machines {
    /// The machine files, in order.
    pub fn as_slice(&self) -> &[NamedMachine]
        ensures same { result.now ≡ self.now }
    {
        self.list.as_slice()
    }
}

/// The bytes of an image, of machine files and of what the console reads, and the pipeline and the
/// limits of the runs. Each run is opened from them when its turn comes.
#[derive(Debug, Drop)]
pub struct SweepFiles {
    pub image: Bytes,
    pub machines: Machines,
    pub input: Bytes,
    /// Which machine plays the runs.
    pub pipeline: Pipeline,
    /// They name no file.
    pub limits: Options,
}

/// The sweep of machines of these names, for which so many sets of devices are there; the files are
/// the image, each machine file, and what the console reads.
pub fn sweep_files(
    alloc: Global,
    names: &Texts,
    pipeline: Pipeline,
    options: &Options,
    sets: usize,
    contents: Vec<Bytes>,
) -> Result<SweepFiles, Refusal>
    requires ranges { HasRanges options.now }
    requires input { length (bytes_at contents.items (length names.now + 1)) ≤ input_limit }
    ensures files { Gives (swept names.now pipeline options.now sets contents.items) result }
    ensures sound { IfOk result (λ files. CanSweep files) }
    ensures room { IfOk result (λ files. length files.machines ≤ sets) }
{
    let names = names.as_slice();
    if sets < names.len() {
        return Err(Refusal::new(Status::Sets(names.len() as u64)));
    }
    let mut contents = contents.into_iter();
    let image = next_file(alloc, &mut contents);
    let list = named_machines(alloc, names, &mut contents)?;
    let input = next_file(alloc, &mut contents);
    Ok(SweepFiles {
        image,
        machines: Machines { list },
        input,
        pipeline,
        limits: limits_of(options),
    })
}

/// Each name with the bytes of its machine file, which come in the same order.
fn named_machines(
    alloc: Global,
    names: &[Text],
    contents: &mut IntoIter<Bytes>,
) -> Result<Vec<NamedMachine>, NoMemory>
    ensures named { IfOk result (λ list.
        list.items ≡ named_machines names.now (into_iter_items contents.old)) }
    ensures left { OnOk result
        (into_iter_items contents.new ≡ drop (length names.now) (into_iter_items contents.old)) }
{
    let mut list = Vec::new(alloc);
    for name in names {
        let machine = NamedMachine {
            name: copy_of(alloc, name)?,
            bytes: next_file(alloc, contents),
        };
        push(&mut list, machine)?;
    }
    Ok(list)
}

/// Takes the bytes of the next file; none where there is no such file.
fn next_file(alloc: Global, contents: &mut IntoIter<Bytes>) -> Bytes
    ensures bytes { result ≡ bytes_at (into_iter_items contents.old) 0 }
    ensures left { into_iter_items contents.new ≡ drop 1 (into_iter_items contents.old) }
{
    match contents.next() {
        Some(bytes) => bytes,
        None => Bytes::new(Vec::new(alloc)),
    }
}

/// The limits that options give, without the name of a file.
fn limits_of(options: &Options) -> Options
    ensures limits { result ≡ limits_of options.now }
{
    Options {
        ring: options.ring,
        cycles: options.cycles,
        output: options.output,
        input: None,
        exit_code: options.exit_code,
    }
}
