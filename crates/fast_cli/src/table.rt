//! The table of commands: their words, and what stands behind each.
ghost use Rattle.std.specs.Prelude.{◌≡◌, [], None, map, option_map};
ghost use Rattle.fast_cli.specs.Form.{form_of};
ghost use Rattle.fast_cli.specs.Line.{named_command, watch_form};
ghost use Rattle.fast_cli.specs.Table.{command_in};

use crate::form::Form;

/// Which command the first of the words names.
#[derive(Clone, Copy)]
pub(crate) enum CommandName {
    Func,
    Run,
    Sched,
    Soak,
    Back,
    Inorder,
    Sweep,
    Trace,
    Stack,
    Profile,
    Count,
    Gdb,
}

/// The command of a word, if it names one.
pub(crate) fn command_named(word: &str) -> Option<CommandName>
    ensures named { option_map command_in result ≡ named_command word.now }
{
    match word {
        "func" => Some(CommandName::Func),
        "run" => Some(CommandName::Run),
        "sched" => Some(CommandName::Sched),
        "soak" => Some(CommandName::Soak),
        "back" => Some(CommandName::Back),
        "inorder" => Some(CommandName::Inorder),
        "sweep" => Some(CommandName::Sweep),
        "trace" => Some(CommandName::Trace),
        "stack" => Some(CommandName::Stack),
        "profile" => Some(CommandName::Profile),
        "count" => Some(CommandName::Count),
        "gdb" => Some(CommandName::Gdb),
        _ => None,
    }
}

/// What a command takes.
pub(crate) fn form_for(name: CommandName) -> Form<'static>
    ensures form { form_of result ≡ (command_in name).form }
{
    match name {
        CommandName::Func => Form {
            flags: &["exit-code"],
            ..form(
                "func",
                &["IMAGE"],
                &["machine", "cycles", "input", "output"],
            )
        },
        CommandName::Run => Form {
            flags: &["exit-code"],
            ..form(
                "run",
                &["IMAGE", "MACHINE"],
                &["pipeline", "threads", "ring", "cycles", "input", "output"],
            )
        },
        CommandName::Sched => form(
            "sched",
            &["IMAGE", "MACHINE", "PLAN"],
            &["ring", "cycles", "input", "output"],
        ),
        CommandName::Soak => form("soak", &["SEED"], &[]),
        CommandName::Back => form(
            "back",
            &["IMAGE", "SCRIPT"],
            &["machine", "history", "cycles", "input", "output"],
        ),
        CommandName::Inorder => Form {
            optional: &["PLAN"],
            flags: &["exit-code"],
            ..form(
                "inorder",
                &["IMAGE", "MACHINE"],
                &["ring", "cycles", "input", "output"],
            )
        },
        CommandName::Sweep => Form {
            rest: Some("MACHINES"),
            ..form(
                "sweep",
                &["IMAGE"],
                &["pipeline", "ring", "cycles", "input", "output"],
            )
        },
        CommandName::Trace => form(
            "trace",
            &["IMAGE", "MACHINE"],
            &["from", "to", "pipeline", "cycles", "input", "output"],
        ),
        CommandName::Stack => watch_form("stack"),
        CommandName::Profile => watch_form("profile"),
        CommandName::Count => form(
            "count",
            &["IMAGE"],
            &["machine", "cycles", "input", "output"],
        ),
        CommandName::Gdb => form(
            "gdb",
            &["IMAGE"],
            &["machine", "history", "cycles", "input", "output"],
        ),
    }
}

/// A command without names behind those of its own, and without flags.
fn form(
    word: &'static str,
    names: &'static [&'static str],
    options: &'static [&'static str],
) -> Form<'static>
    ensures form { form_of result ≡ record {
      word = word.now;
      names = map (λ name. name.now) names.now;
      optional = [];
      rest = None;
      options = map (λ option. option.now) options.now;
      flags = [];
    } }
{
    Form {
        word,
        names,
        optional: &[],
        rest: None,
        options,
        flags: &[],
    }
}

/// A command that watches a run on a machine.
fn watch_form(word: &'static str) -> Form<'static>
    ensures form { form_of result ≡ watch_form word.now }
{
    form(
        word,
        &["IMAGE", "MACHINE"],
        &["pipeline", "cycles", "input", "output"],
    )
}
