//! The line of each command, from the values that a parse found.
ghost use Rattle.std.specs.Prelude.{◌≡◌, ◌≢◌, IfOk, Some, None, Err, IsSome};
ghost use Rattle.fast_cli.specs.Command.{values_of};
ghost use Rattle.fast_cli.specs.Line.{back_at, count_at, func_at, gdb_at, inorder_at, profile_at};
ghost use Rattle.fast_cli.specs.Line.{run_at, sched_at, soak_at, stack_at, sweep_at, trace_at};
ghost use Rattle.fast_cli.specs.Ranges.{IsInRange};
ghost use Rattle.fast_cli.specs.Table.{command_in};

use crate::line::{Line, UsageFault};
use crate::own::{own_name, own_name_if_given, own_names, own_options};
use crate::table::CommandName;
use crate::values::{
    given_number_at, last_cycle_at, name_at, name_if_given, names_at, number_at, options_at,
    pipeline_at,
};
use clap::ArgMatches;
use std::alloc::Global;

/// The line of a command.
pub(crate) fn line_at(
    alloc: Global,
    name: CommandName,
    matches: &ArgMatches<'_>,
) -> Result<Line, UsageFault>
    ensures ok { IfOk result (λ l. (command_in name).read (values_of matches.now) ≡ Some l) }
    ensures ranges { IfOk result IsInRange }
    ensures words { result ≡ Err UsageFault.Words
        → (command_in name).read (values_of matches.now) ≡ None }
    ensures memory { result ≡ Err UsageFault.Memory
        → IsSome ((command_in name).read (values_of matches.now)) }
{
    match name {
        CommandName::Func => func_at(alloc, matches),
        CommandName::Run => run_at(alloc, matches),
        CommandName::Sched => sched_at(alloc, matches),
        CommandName::Soak => soak_at(matches),
        CommandName::Back => back_at(alloc, matches),
        CommandName::Inorder => inorder_at(alloc, matches),
        CommandName::Sweep => sweep_at(alloc, matches),
        CommandName::Trace => trace_at(alloc, matches),
        CommandName::Stack => stack_at(alloc, matches),
        CommandName::Profile => profile_at(alloc, matches),
        CommandName::Count => count_at(alloc, matches),
        CommandName::Gdb => gdb_at(alloc, matches),
    }
}

#[tactic(auto, unfolding(crate::specs::Line::func_at))]
fn func_at(alloc: Global, matches: &ArgMatches<'_>) -> Result<Line, UsageFault>
    ensures ok { IfOk result (λ l. func_at (values_of matches.now) ≡ Some l) }
    ensures ranges { IfOk result IsInRange }
    ensures words { result ≡ Err UsageFault.Words → func_at (values_of matches.now) ≡ None }
    ensures memory { result ≡ Err UsageFault.Memory → IsSome (func_at (values_of matches.now)) }
{
    let image = name_at(matches, "IMAGE").ok_or(UsageFault::Words)?;
    let machine = name_if_given(matches, "machine").ok_or(UsageFault::Words)?;
    let options = options_at(matches).ok_or(UsageFault::Words)?;
    Ok(Line::Func {
        image: own_name(alloc, image)?,
        machine: own_name_if_given(alloc, machine)?,
        options: own_options(alloc, &options)?,
    })
}

#[tactic(auto, unfolding(crate::specs::Line::run_at))]
fn run_at(alloc: Global, matches: &ArgMatches<'_>) -> Result<Line, UsageFault>
    ensures ok { IfOk result (λ l. run_at (values_of matches.now) ≡ Some l) }
    ensures ranges { IfOk result IsInRange }
    ensures words { result ≡ Err UsageFault.Words → run_at (values_of matches.now) ≡ None }
    ensures memory { result ≡ Err UsageFault.Memory → IsSome (run_at (values_of matches.now)) }
{
    let image = name_at(matches, "IMAGE").ok_or(UsageFault::Words)?;
    let machine = name_at(matches, "MACHINE").ok_or(UsageFault::Words)?;
    let pipeline = pipeline_at(matches).ok_or(UsageFault::Words)?;
    let threads = number_at(matches, "threads", 1, 2, 2).ok_or(UsageFault::Words)?;
    let options = options_at(matches).ok_or(UsageFault::Words)?;
    Ok(Line::Run {
        image: own_name(alloc, image)?,
        machine: own_name(alloc, machine)?,
        pipeline,
        threads: threads as u32,
        options: own_options(alloc, &options)?,
    })
}

#[tactic(auto, unfolding(crate::specs::Line::sched_at))]
fn sched_at(alloc: Global, matches: &ArgMatches<'_>) -> Result<Line, UsageFault>
    ensures ok { IfOk result (λ l. sched_at (values_of matches.now) ≡ Some l) }
    ensures ranges { IfOk result IsInRange }
    ensures words { result ≡ Err UsageFault.Words → sched_at (values_of matches.now) ≡ None }
    ensures memory { result ≡ Err UsageFault.Memory → IsSome (sched_at (values_of matches.now)) }
{
    let image = name_at(matches, "IMAGE").ok_or(UsageFault::Words)?;
    let machine = name_at(matches, "MACHINE").ok_or(UsageFault::Words)?;
    let plan = name_at(matches, "PLAN").ok_or(UsageFault::Words)?;
    let options = options_at(matches).ok_or(UsageFault::Words)?;
    Ok(Line::Sched {
        image: own_name(alloc, image)?,
        machine: own_name(alloc, machine)?,
        plan: own_name(alloc, plan)?,
        options: own_options(alloc, &options)?,
    })
}

#[tactic(auto, unfolding(crate::specs::Line::soak_at))]
fn soak_at(matches: &ArgMatches<'_>) -> Result<Line, UsageFault>
    ensures ok { IfOk result (λ l. soak_at (values_of matches.now) ≡ Some l) }
    ensures ranges { IfOk result IsInRange }
    ensures words { result ≡ Err UsageFault.Words → soak_at (values_of matches.now) ≡ None }
    ensures memory { result ≢ Err UsageFault.Memory }
{
    let seed = given_number_at(matches, "SEED", 0, u64::MAX).ok_or(UsageFault::Words)?;
    Ok(Line::Soak { seed })
}

#[tactic(auto, unfolding(crate::specs::Line::back_at))]
fn back_at(alloc: Global, matches: &ArgMatches<'_>) -> Result<Line, UsageFault>
    ensures ok { IfOk result (λ l. back_at (values_of matches.now) ≡ Some l) }
    ensures ranges { IfOk result IsInRange }
    ensures words { result ≡ Err UsageFault.Words → back_at (values_of matches.now) ≡ None }
    ensures memory { result ≡ Err UsageFault.Memory → IsSome (back_at (values_of matches.now)) }
{
    let image = name_at(matches, "IMAGE").ok_or(UsageFault::Words)?;
    let script = name_at(matches, "SCRIPT").ok_or(UsageFault::Words)?;
    let machine = name_if_given(matches, "machine").ok_or(UsageFault::Words)?;
    let history = number_at(matches, "history", 1, 1_048_576, 65_536).ok_or(UsageFault::Words)?;
    let options = options_at(matches).ok_or(UsageFault::Words)?;
    Ok(Line::Back {
        image: own_name(alloc, image)?,
        script: own_name(alloc, script)?,
        machine: own_name_if_given(alloc, machine)?,
        history: history as u32,
        options: own_options(alloc, &options)?,
    })
}

#[tactic(auto, unfolding(crate::specs::Line::inorder_at))]
fn inorder_at(alloc: Global, matches: &ArgMatches<'_>) -> Result<Line, UsageFault>
    ensures ok { IfOk result (λ l. inorder_at (values_of matches.now) ≡ Some l) }
    ensures ranges { IfOk result IsInRange }
    ensures words { result ≡ Err UsageFault.Words → inorder_at (values_of matches.now) ≡ None }
    ensures memory { result ≡ Err UsageFault.Memory → IsSome (inorder_at (values_of matches.now)) }
{
    let image = name_at(matches, "IMAGE").ok_or(UsageFault::Words)?;
    let machine = name_at(matches, "MACHINE").ok_or(UsageFault::Words)?;
    let plan = name_if_given(matches, "PLAN").ok_or(UsageFault::Words)?;
    let options = options_at(matches).ok_or(UsageFault::Words)?;
    Ok(Line::Inorder {
        image: own_name(alloc, image)?,
        machine: own_name(alloc, machine)?,
        plan: own_name_if_given(alloc, plan)?,
        options: own_options(alloc, &options)?,
    })
}

#[tactic(auto, unfolding(crate::specs::Line::sweep_at))]
fn sweep_at(alloc: Global, matches: &ArgMatches<'_>) -> Result<Line, UsageFault>
    ensures ok { IfOk result (λ l. sweep_at (values_of matches.now) ≡ Some l) }
    ensures ranges { IfOk result IsInRange }
    ensures words { result ≡ Err UsageFault.Words → sweep_at (values_of matches.now) ≡ None }
    ensures memory { result ≡ Err UsageFault.Memory → IsSome (sweep_at (values_of matches.now)) }
{
    let image = name_at(matches, "IMAGE").ok_or(UsageFault::Words)?;
    let machines = names_at(matches, "MACHINES").ok_or(UsageFault::Words)?;
    let pipeline = pipeline_at(matches).ok_or(UsageFault::Words)?;
    let options = options_at(matches).ok_or(UsageFault::Words)?;
    Ok(Line::Sweep {
        image: own_name(alloc, image)?,
        machines: own_names(alloc, machines)?,
        pipeline,
        options: own_options(alloc, &options)?,
    })
}

#[tactic(auto, unfolding(crate::specs::Line::trace_at))]
fn trace_at(alloc: Global, matches: &ArgMatches<'_>) -> Result<Line, UsageFault>
    ensures ok { IfOk result (λ l. trace_at (values_of matches.now) ≡ Some l) }
    ensures ranges { IfOk result IsInRange }
    ensures words { result ≡ Err UsageFault.Words → trace_at (values_of matches.now) ≡ None }
    ensures memory { result ≡ Err UsageFault.Memory → IsSome (trace_at (values_of matches.now)) }
{
    let image = name_at(matches, "IMAGE").ok_or(UsageFault::Words)?;
    let machine = name_at(matches, "MACHINE").ok_or(UsageFault::Words)?;
    let from = number_at(matches, "from", 0, 1_099_511_627_776, 0).ok_or(UsageFault::Words)?;
    let to = last_cycle_at(matches, from).ok_or(UsageFault::Words)?;
    let pipeline = pipeline_at(matches).ok_or(UsageFault::Words)?;
    let options = options_at(matches).ok_or(UsageFault::Words)?;
    Ok(Line::Trace {
        image: own_name(alloc, image)?,
        machine: own_name(alloc, machine)?,
        from,
        to,
        pipeline,
        options: own_options(alloc, &options)?,
    })
}

#[tactic(auto, unfolding(crate::specs::Line::stack_at))]
fn stack_at(alloc: Global, matches: &ArgMatches<'_>) -> Result<Line, UsageFault>
    ensures ok { IfOk result (λ l. stack_at (values_of matches.now) ≡ Some l) }
    ensures ranges { IfOk result IsInRange }
    ensures words { result ≡ Err UsageFault.Words → stack_at (values_of matches.now) ≡ None }
    ensures memory { result ≡ Err UsageFault.Memory → IsSome (stack_at (values_of matches.now)) }
{
    let image = name_at(matches, "IMAGE").ok_or(UsageFault::Words)?;
    let machine = name_at(matches, "MACHINE").ok_or(UsageFault::Words)?;
    let pipeline = pipeline_at(matches).ok_or(UsageFault::Words)?;
    let options = options_at(matches).ok_or(UsageFault::Words)?;
    Ok(Line::Stack {
        image: own_name(alloc, image)?,
        machine: own_name(alloc, machine)?,
        pipeline,
        options: own_options(alloc, &options)?,
    })
}

#[tactic(auto, unfolding(crate::specs::Line::profile_at))]
fn profile_at(alloc: Global, matches: &ArgMatches<'_>) -> Result<Line, UsageFault>
    ensures ok { IfOk result (λ l. profile_at (values_of matches.now) ≡ Some l) }
    ensures ranges { IfOk result IsInRange }
    ensures words { result ≡ Err UsageFault.Words → profile_at (values_of matches.now) ≡ None }
    ensures memory { result ≡ Err UsageFault.Memory → IsSome (profile_at (values_of matches.now)) }
{
    let image = name_at(matches, "IMAGE").ok_or(UsageFault::Words)?;
    let machine = name_at(matches, "MACHINE").ok_or(UsageFault::Words)?;
    let pipeline = pipeline_at(matches).ok_or(UsageFault::Words)?;
    let options = options_at(matches).ok_or(UsageFault::Words)?;
    Ok(Line::Profile {
        image: own_name(alloc, image)?,
        machine: own_name(alloc, machine)?,
        pipeline,
        options: own_options(alloc, &options)?,
    })
}

#[tactic(auto, unfolding(crate::specs::Line::count_at))]
fn count_at(alloc: Global, matches: &ArgMatches<'_>) -> Result<Line, UsageFault>
    ensures ok { IfOk result (λ l. count_at (values_of matches.now) ≡ Some l) }
    ensures ranges { IfOk result IsInRange }
    ensures words { result ≡ Err UsageFault.Words → count_at (values_of matches.now) ≡ None }
    ensures memory { result ≡ Err UsageFault.Memory → IsSome (count_at (values_of matches.now)) }
{
    let image = name_at(matches, "IMAGE").ok_or(UsageFault::Words)?;
    let machine = name_if_given(matches, "machine").ok_or(UsageFault::Words)?;
    let options = options_at(matches).ok_or(UsageFault::Words)?;
    Ok(Line::Count {
        image: own_name(alloc, image)?,
        machine: own_name_if_given(alloc, machine)?,
        options: own_options(alloc, &options)?,
    })
}

#[tactic(auto, unfolding(crate::specs::Line::gdb_at))]
fn gdb_at(alloc: Global, matches: &ArgMatches<'_>) -> Result<Line, UsageFault>
    ensures ok { IfOk result (λ l. gdb_at (values_of matches.now) ≡ Some l) }
    ensures ranges { IfOk result IsInRange }
    ensures words { result ≡ Err UsageFault.Words → gdb_at (values_of matches.now) ≡ None }
    ensures memory { result ≡ Err UsageFault.Memory → IsSome (gdb_at (values_of matches.now)) }
{
    let image = name_at(matches, "IMAGE").ok_or(UsageFault::Words)?;
    let machine = name_if_given(matches, "machine").ok_or(UsageFault::Words)?;
    let history = number_at(matches, "history", 1, 1_048_576, 1_048_576).ok_or(UsageFault::Words)?;
    let options = options_at(matches).ok_or(UsageFault::Words)?;
    Ok(Line::Gdb {
        image: own_name(alloc, image)?,
        machine: own_name_if_given(alloc, machine)?,
        history: history as u32,
        options: own_options(alloc, &options)?,
    })
}
