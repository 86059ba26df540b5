ghost use Rattle.std.specs.Prelude.{◌≡◌, ◌++◌, ◌∷◌, [], flat_map, map, option_copied, IfOk, OnOk};
ghost use Rattle.report_text.specs.declared.status.Role.TheVariants as role;
ghost use Rattle.fast_jobs.specs.Files.{file, file_if_named, files_of, input_of};

use crate::grow;
use fast_cli::{Line, Options};
use fsim_base::{NoMemory, Text};
use report_text::Role;
use std::alloc::Global;

/// A file that a line names, and what it is for.
#[derive(Debug, Drop)]
pub struct NamedFile {
    pub role: Role,
    pub name: Text,
}

/// The files that are read for a line, in their order.
pub fn files_of(alloc: Global, line: &Line) -> Result<Vec<NamedFile>, NoMemory>
    ensures files { IfOk result (λ files. files.items ≡ files_of line.now) }
{
    match line {
        Line::Func {
            image,
            machine,
            options,
        }
        | Line::Count {
            image,
            machine,
            options,
        }
        | Line::Gdb {
            image,
            machine,
            options,
            ..
        } => files_of_run(alloc, image, &[(Role::Machine, machine.as_ref())], options),
        Line::Run {
            image,
            machine,
            options,
            ..
        }
        | Line::Trace {
            image,
            machine,
            options,
            ..
        }
        | Line::Stack {
            image,
            machine,
            options,
            ..
        }
        | Line::Profile {
            image,
            machine,
            options,
            ..
        } => files_of_run(alloc, image, &[(Role::Machine, Some(machine))], options),
        Line::Sched {
            image,
            machine,
            plan,
            options,
        } => files_of_plan(alloc, image, machine, Some(plan), options),
        Line::Inorder {
            image,
            machine,
            plan,
            options,
        } => files_of_plan(alloc, image, machine, plan.as_ref(), options),
        Line::Back {
            image,
            script,
            machine,
            options,
            ..
        } => {
            let rows = [
                (Role::Machine, machine.as_ref()),
                (Role::Script, Some(script)),
            ];
            files_of_run(alloc, image, &rows, options)
        }
        Line::Sweep {
            image,
            machines,
            options,
            ..
        } => files_of_sweep(alloc, image, machines.as_slice(), options),
        Line::Soak { .. } => Ok(Vec::new(alloc)),
    }
}

/// The files of a run: an image, those of the rows that have a name, and what the console reads.
fn files_of_run(
    alloc: Global,
    image: &Text,
    rows: &[(Role, Option<&Text>)],
    options: &Options,
) -> Result<Vec<NamedFile>, NoMemory>
    ensures files { IfOk result (λ files. files.items ≡ file role.Image image.now
        ∷ flat_map (λ row. file_if_named row.0 (option_copied row.1)) rows.now
        ++ input_of options.now) }
{
    let mut files = Vec::new(alloc);
    push(alloc, Role::Image, image, &mut files)?;
    for row in rows {
        push_if_named(alloc, row.0, row.1, &mut files)?;
    }
    push_if_named(alloc, Role::Input, options.input.as_ref(), &mut files)?;
    Ok(files)
}

/// The files of a run on a machine that a plan may be for.
fn files_of_plan(
    alloc: Global,
    image: &Text,
    machine: &Text,
    plan: Option<&Text>,
    options: &Options,
) -> Result<Vec<NamedFile>, NoMemory>
    ensures files { IfOk result (λ files. files.items ≡ file role.Image image.now
        ∷ file role.Machine machine.now ∷ file_if_named role.Plan (option_copied plan.entry)
        ++ input_of options.now) }
{
    let rows = [(Role::Machine, Some(machine)), (Role::Plan, plan)];
    files_of_run(alloc, image, &rows, options)
}

/// The files of a sweep: an image, the machine files, and what the console reads.
fn files_of_sweep(
    alloc: Global,
    image: &Text,
    machines: &[Text],
    options: &Options,
) -> Result<Vec<NamedFile>, NoMemory>
    ensures files { IfOk result (λ files. files.items
        ≡ file role.Image image.now ∷ map (file role.Machine) machines.now
        ++ input_of options.now) }
{
    let mut files = Vec::new(alloc);
    push(alloc, Role::Image, image, &mut files)?;
    push_machines(alloc, machines, &mut files)?;
    push_if_named(alloc, Role::Input, options.input.as_ref(), &mut files)?;
    Ok(files)
}

/// Adds the file of a role.
fn push(alloc: Global, role: Role, name: &Text, files: &mut Vec<NamedFile>) -> Result<(), NoMemory>
    ensures pushed { OnOk result (files.new.items ≡ files.old.items ++ file role name.now ∷ []) }
{
    let name = copy_of(alloc, name)?;
    grow::push(files, NamedFile { role, name })
}

/// The same text once more.
pub fn copy_of(alloc: Global, text: &Text) -> Result<Text, NoMemory>
    ensures same { IfOk result (λ copy. copy ≡ text.now) }
{
    match String::from_str(alloc, text.as_str()) {
        Ok(copy) => Ok(Text::new(copy)),
        Err(_) => Err(NoMemory),
    }
}

/// Adds the machine files of a sweep.
fn push_machines(
    alloc: Global,
    machines: &[Text],
    files: &mut Vec<NamedFile>,
) -> Result<(), NoMemory>
    ensures pushed { OnOk result
        (files.new.items ≡ files.old.items ++ map (file role.Machine) machines.now) }
{
    for machine in machines {
        push(alloc, Role::Machine, machine, files)?;
    }
    Ok(())
}

/// Adds the file of a role, if there is a name.
fn push_if_named(
    alloc: Global,
    role: Role,
    name: Option<&Text>,
    files: &mut Vec<NamedFile>,
) -> Result<(), NoMemory>
    ensures pushed { OnOk result
        (files.new.items ≡ files.old.items ++ file_if_named role (option_copied name.entry)) }
{
    match name {
        Some(name) => push(alloc, role, name, files),
        None => Ok(()),
    }
}
