//! Lines at words that are written out. Each clause is computed by the checker from the definition
//! of `line`, so it says of `read_words` what it answers at these words.
ghost use Rattle.std.specs.Prelude.{◌≡◌, [], ◌∷◌, ◌++◌, Some, None, true, codes, replicate};
ghost use Rattle.fast_cli.specs.Line.{line};
ghost use Rattle.fast_cli.specs.declared.line.Line.TheVariants.{Back, Count, Func, Gdb, Inorder};
ghost use Rattle.fast_cli.specs.declared.line.Line.TheVariants.{Profile, Run, Sched, Soak, Stack};
ghost use Rattle.fast_cli.specs.declared.line.Line.TheVariants.{Sweep, Trace};
ghost use Rattle.fast_cli.specs.declared.line.Pipeline.TheVariants.{Window};
ghost use Rattle.fast_cli.specs.declared.line.Pipeline.TheVariants as pipeline;
ghost use Rattle.fast_cli.specs.Examples.{defaults, words_of};

/// Each command with its names alone, and so with each default.
#[tactic(auto, unfolding(crate::proofs::OnWords::line_on_words))]
pub fn commands_with_names_alone()
    ensures func { line (words_of (codes "func a")) ≡ Some (Func (codes "a") None defaults) }
    ensures run { line (words_of (codes "run a m"))
        ≡ Some (Run (codes "a") (codes "m") Window 2 defaults) }
    ensures sched { line (words_of (codes "sched a m p"))
        ≡ Some (Sched (codes "a") (codes "m") (codes "p") defaults) }
    ensures soak { line (words_of (codes "soak 7")) ≡ Some (Soak 7) }
    ensures back { line (words_of (codes "back a s"))
        ≡ Some (Back (codes "a") (codes "s") None 65536 defaults) }
    ensures inorder { line (words_of (codes "inorder a m p"))
        ≡ Some (Inorder (codes "a") (codes "m") (Some (codes "p")) defaults) }
    ensures inorder_without_a_plan { line (words_of (codes "inorder a m"))
        ≡ Some (Inorder (codes "a") (codes "m") None defaults) }
    ensures sweep_one { line (words_of (codes "sweep a m"))
        ≡ Some (Sweep (codes "a") (codes "m" ∷ []) Window defaults) }
    ensures sweep_three { line (words_of (codes "sweep a m n m"))
        ≡ Some (Sweep (codes "a") (codes "m" ∷ codes "n" ∷ codes "m" ∷ []) Window defaults) }
    ensures count { line (words_of (codes "count a")) ≡ Some (Count (codes "a") None defaults) }
    ensures gdb { line (words_of (codes "gdb a"))
        ≡ Some (Gdb (codes "a") None 1048576 defaults) }
    ensures named_help { line (words_of (codes "func help")) ≡ Some (Func (codes "help") None defaults) }
{}

/// The commands that watch a run, with their names alone and with their options.
#[tactic(auto, unfolding(crate::proofs::OnWords::line_on_words))]
pub fn commands_that_watch()
    ensures trace { line (words_of (codes "trace a m"))
        ≡ Some (Trace (codes "a") (codes "m") 0 10000 Window defaults) }
    ensures trace_from { line (words_of (codes "trace a m --from 5"))
        ≡ Some (Trace (codes "a") (codes "m") 5 10005 Window defaults) }
    ensures trace_from_last { line (words_of (codes "trace a m --from 1099511627776"))
        ≡ Some (Trace (codes "a") (codes "m") 1099511627776 1099511637776 Window defaults) }
    ensures trace_from_above { line (words_of (codes "trace a m --from 1099511627777")) ≡ None }
    ensures trace_to { line (words_of (codes "trace a m --from 5 --to 1"))
        ≡ Some (Trace (codes "a") (codes "m") 5 1 Window defaults) }
    ensures trace_to_above { line (words_of (codes "trace a m --to 1099511627777")) ≡ None }
    ensures trace_inorder { line (words_of (codes "trace a m --pipeline inorder --cycles 2"))
        ≡ Some (Trace (codes "a") (codes "m") 0 10000 pipeline.Inorder
        (record defaults { cycles = 2 })) }
    ensures stack { line (words_of (codes "stack a m"))
        ≡ Some (Stack (codes "a") (codes "m") Window defaults) }
    ensures stack_window { line (words_of (codes "stack a m --pipeline=window --input i"))
        ≡ Some (Stack (codes "a") (codes "m") Window (record defaults { input = Some (codes "i") })) }
    ensures profile { line (words_of (codes "profile a m --pipeline inorder"))
        ≡ Some (Profile (codes "a") (codes "m") pipeline.Inorder defaults) }
    ensures no_such_pipeline { line (words_of (codes "stack a m --pipeline lane")) ≡ None }
    ensures count_has_no_pipeline { line (words_of (codes "count a --pipeline window")) ≡ None }
    ensures stack_has_no_from { line (words_of (codes "stack a m --from 1")) ≡ None }
    ensures profile_has_no_to { line (words_of (codes "profile a m --to 1")) ≡ None }
    ensures trace_has_no_ring { line (words_of (codes "trace a m --ring 1")) ≡ None }
    ensures stack_has_no_threads { line (words_of (codes "stack a m --threads 1")) ≡ None }
    ensures profile_has_no_exit_code { line (words_of (codes "profile a m --exit-code")) ≡ None }
{}

/// Each option, and which commands have it.
#[tactic(auto, unfolding(crate::proofs::OnWords::line_on_words))]
pub fn each_option()
    ensures func { line (words_of (codes "func a --cycles 2 --input i --output 3"))
        ≡ Some (Func (codes "a") None (record defaults {
          cycles = 2;
          input = Some (codes "i");
          output = 3;
        })) }
    ensures run { line (words_of (codes "run a m --ring 1 --cycles 2 --input i --output 3"))
        ≡ Some (Run (codes "a") (codes "m") Window 2
        (record defaults { ring = 1; cycles = 2; input = Some (codes "i"); output = 3 })) }
    ensures run_threads { line (words_of (codes "run a m --threads 1 --ring 1"))
        ≡ Some (Run (codes "a") (codes "m") Window 1 (record defaults { ring = 1 })) }
    ensures run_in_order { line (words_of (codes "run a m --pipeline inorder"))
        ≡ Some (Run (codes "a") (codes "m") pipeline.Inorder 2 defaults) }
    ensures run_with_a_window { line (words_of (codes "run a m --pipeline=window"))
        ≡ Some (Run (codes "a") (codes "m") Window 2 defaults) }
    ensures sched { line (words_of (codes "sched a m p --ring 1"))
        ≡ Some (Sched (codes "a") (codes "m") (codes "p") (record defaults { ring = 1 })) }
    ensures back { line (words_of (codes "back a s --history 1 --cycles 2"))
        ≡ Some (Back (codes "a") (codes "s") None 1 (record defaults { cycles = 2 })) }
    ensures inorder { line (words_of (codes "inorder a m p --ring 1"))
        ≡ Some (Inorder (codes "a") (codes "m") (Some (codes "p")) (record defaults { ring = 1 })) }
    ensures sweep { line (words_of (codes "sweep a m --ring 1"))
        ≡ Some (Sweep (codes "a") (codes "m" ∷ []) Window (record defaults { ring = 1 })) }
    ensures sweep_in_order { line (words_of (codes "sweep a m --pipeline inorder"))
        ≡ Some (Sweep (codes "a") (codes "m" ∷ []) pipeline.Inorder defaults) }
    ensures unknown_pipeline { line (words_of (codes "run a m --pipeline lane")) ≡ None }
    ensures pipeline_in_capitals { line (words_of (codes "run a m --pipeline INORDER")) ≡ None }
    ensures empty_pipeline { line (words_of (codes "run a m --pipeline=")) ≡ None }
    ensures func_has_no_pipeline { line (words_of (codes "func a --pipeline inorder")) ≡ None }
    ensures inorder_has_no_pipeline { line (words_of (codes "inorder a m --pipeline inorder"))
        ≡ None }
    ensures func_machine { line (words_of (codes "func a --machine m"))
        ≡ Some (Func (codes "a") (Some (codes "m")) defaults) }
    ensures back_machine { line (words_of (codes "back a s --machine=m --history 1"))
        ≡ Some (Back (codes "a") (codes "s") (Some (codes "m")) 1 defaults) }
    ensures count_options { line (words_of (codes "count a --output 3 --machine m"))
        ≡ Some (Count (codes "a") (Some (codes "m")) (record defaults { output = 3 })) }
    ensures run_has_no_machine_option { line (words_of (codes "run a m --machine m")) ≡ None }
    ensures func_exit_code { line (words_of (codes "func a --exit-code"))
        ≡ Some (Func (codes "a") None (record defaults { exit_code = true })) }
    ensures run_exit_code { line (words_of (codes "run --exit-code a m --ring 1"))
        ≡ Some (Run (codes "a") (codes "m") Window 2
        (record defaults { ring = 1; exit_code = true })) }
    ensures inorder_exit_code { line (words_of (codes "inorder a --exit-code m"))
        ≡ Some (Inorder (codes "a") (codes "m") None (record defaults { exit_code = true })) }
    ensures exit_code_has_no_value { line (words_of (codes "func a --exit-code=1")) ≡ None }
    ensures exit_code_takes_no_word { line (words_of (codes "func a --exit-code 1")) ≡ None }
    ensures exit_code_twice { line (words_of (codes "func a --exit-code --exit-code")) ≡ None }
    ensures exit_code_is_no_value { line (words_of (codes "func a --input --exit-code")) ≡ None }
    ensures sched_has_no_exit_code { line (words_of (codes "sched a m p --exit-code")) ≡ None }
    ensures soak_has_no_exit_code { line (words_of (codes "soak 7 --exit-code")) ≡ None }
    ensures back_has_no_exit_code { line (words_of (codes "back a s --exit-code")) ≡ None }
    ensures sweep_has_no_exit_code { line (words_of (codes "sweep a m --exit-code")) ≡ None }
    ensures count_has_no_exit_code { line (words_of (codes "count a --exit-code")) ≡ None }
    ensures count_has_no_ring { line (words_of (codes "count a --ring 1")) ≡ None }
    ensures gdb_has_no_exit_code { line (words_of (codes "gdb a --exit-code")) ≡ None }
    ensures gdb { line (words_of (codes "gdb a --history 1 --cycles 2"))
        ≡ Some (Gdb (codes "a") None 1 (record defaults { cycles = 2 })) }
    ensures gdb_machine { line (words_of (codes "gdb a --machine m"))
        ≡ Some (Gdb (codes "a") (Some (codes "m")) 1048576 defaults) }
    ensures func_has_no_ring { line (words_of (codes "func a --ring 1")) ≡ None }
    ensures back_has_no_ring { line (words_of (codes "back a s --ring 1")) ≡ None }
    ensures gdb_has_no_ring { line (words_of (codes "gdb a --ring 1")) ≡ None }
    ensures soak_has_no_ring { line (words_of (codes "soak 7 --ring 1")) ≡ None }
    ensures soak_has_no_cycles { line (words_of (codes "soak 7 --cycles 1")) ≡ None }
    ensures run_has_no_history { line (words_of (codes "run a m --history 1")) ≡ None }
    ensures func_has_no_threads { line (words_of (codes "func a --threads 1")) ≡ None }
    ensures sched_has_no_threads { line (words_of (codes "sched a m p --threads 1")) ≡ None }
    ensures soak_has_no_threads { line (words_of (codes "soak 7 --threads 1")) ≡ None }
    ensures back_has_no_threads { line (words_of (codes "back a s --threads 1")) ≡ None }
    ensures inorder_has_no_threads { line (words_of (codes "inorder a m p --threads 1")) ≡ None }
    ensures sweep_has_no_threads { line (words_of (codes "sweep a m --threads 1")) ≡ None }
{}

/// Options stand before, between and after the names, with their value in the next word or behind
/// `=`, each at most once.
#[tactic(auto, unfolding(crate::proofs::OnWords::line_on_words))]
pub fn options_anywhere()
    ensures before { line (words_of (codes "run --ring 8 a m"))
        ≡ Some (Run (codes "a") (codes "m") Window 2 (record defaults { ring = 8 })) }
    ensures between { line (words_of (codes "run a --ring 8 m"))
        ≡ Some (Run (codes "a") (codes "m") Window 2 (record defaults { ring = 8 })) }
    ensures after { line (words_of (codes "run a m --ring 8"))
        ≡ Some (Run (codes "a") (codes "m") Window 2 (record defaults { ring = 8 })) }
    ensures attached { line (words_of (codes "run --ring=8 a m"))
        ≡ Some (Run (codes "a") (codes "m") Window 2 (record defaults { ring = 8 })) }
    ensures all_places { line (words_of (codes "run --cycles 2 a --ring=8 m --output 3"))
        ≡ Some (Run (codes "a") (codes "m") Window 2
        (record defaults { ring = 8; cycles = 2; output = 3 })) }
    ensures among_machines { line (words_of (codes "sweep a m --ring 8 n --cycles=2 m"))
        ≡ Some (Sweep (codes "a") (codes "m" ∷ codes "n" ∷ codes "m" ∷ []) Window
        (record defaults { ring = 8; cycles = 2 })) }
    ensures before_the_command { line (words_of (codes "--ring 8 run a m")) ≡ None }
    ensures twice { line (words_of (codes "run a m --ring 8 --ring 8")) ≡ None }
    ensures twice_with_names_between { line (words_of (codes "run --ring=8 a --ring=9 m")) ≡ None }
    ensures twice_threads { line (words_of (codes "run a m --threads 1 --threads=1")) ≡ None }
    ensures twice_input { line (words_of (codes "func a --input i --input i")) ≡ None }
{}

/// A number is one to twenty digits in its range, with no sign.
#[tactic(auto, unfolding(crate::proofs::OnWords::line_on_words))]
pub fn numbers()
    ensures ring_least { line (words_of (codes "run a m --ring 1"))
        ≡ Some (Run (codes "a") (codes "m") Window 2 (record defaults { ring = 1 })) }
    ensures ring_most { line (words_of (codes "run a m --ring 65536"))
        ≡ Some (Run (codes "a") (codes "m") Window 2 (record defaults { ring = 65536 })) }
    ensures ring_below { line (words_of (codes "run a m --ring 0")) ≡ None }
    ensures ring_above { line (words_of (codes "run a m --ring 65537")) ≡ None }
    ensures cycles_least { line (words_of (codes "func a --cycles 1"))
        ≡ Some (Func (codes "a") None (record defaults { cycles = 1 })) }
    ensures cycles_most { line (words_of (codes "func a --cycles 1099511627776"))
        ≡ Some (Func (codes "a") None (record defaults { cycles = 1099511627776 })) }
    ensures cycles_below { line (words_of (codes "func a --cycles 0")) ≡ None }
    ensures cycles_above { line (words_of (codes "func a --cycles 1099511627777")) ≡ None }
    ensures output_least { line (words_of (codes "func a --output 0"))
        ≡ Some (Func (codes "a") None (record defaults { output = 0 })) }
    ensures output_most { line (words_of (codes "func a --output 16777216"))
        ≡ Some (Func (codes "a") None (record defaults { output = 16777216 })) }
    ensures output_above { line (words_of (codes "func a --output 16777217")) ≡ None }
    ensures history_least { line (words_of (codes "back a s --history 1"))
        ≡ Some (Back (codes "a") (codes "s") None 1 defaults) }
    ensures history_most { line (words_of (codes "back a s --history 1048576"))
        ≡ Some (Back (codes "a") (codes "s") None 1048576 defaults) }
    ensures history_below { line (words_of (codes "back a s --history 0")) ≡ None }
    ensures history_above { line (words_of (codes "back a s --history 1048577")) ≡ None }
    ensures threads_least { line (words_of (codes "run a m --threads 1"))
        ≡ Some (Run (codes "a") (codes "m") Window 1 defaults) }
    ensures threads_most { line (words_of (codes "run a m --threads=2"))
        ≡ Some (Run (codes "a") (codes "m") Window 2 defaults) }
    ensures threads_below { line (words_of (codes "run a m --threads 0")) ≡ None }
    ensures threads_above { line (words_of (codes "run a m --threads 3")) ≡ None }
    ensures seed_least { line (words_of (codes "soak 0")) ≡ Some (Soak 0) }
    ensures seed_most { line (words_of (codes "soak 18446744073709551615"))
        ≡ Some (Soak 18446744073709551615) }
    ensures seed_above { line (words_of (codes "soak 18446744073709551616")) ≡ None }
{}

/// How a number is written.
#[tactic(auto, unfolding(crate::proofs::OnWords::line_on_words))]
pub fn numerals()
    ensures leading_zeros { line (words_of (codes "run a m --ring 008"))
        ≡ Some (Run (codes "a") (codes "m") Window 2 (record defaults { ring = 8 })) }
    ensures twenty_digits { line (words_of (codes "run a m --ring 00000000000000000008"))
        ≡ Some (Run (codes "a") (codes "m") Window 2 (record defaults { ring = 8 })) }
    ensures twenty_one_digits { line (words_of (codes "run a m --ring 000000000000000000008"))
        ≡ None }
    ensures plus { line (words_of (codes "run a m --ring +8")) ≡ None }
    ensures attached_plus { line (words_of (codes "run a m --ring=+8")) ≡ None }
    ensures minus { line (words_of (codes "soak -1")) ≡ None }
    ensures attached_minus { line (words_of (codes "run a m --ring=-8")) ≡ None }
    ensures empty { line (words_of (codes "run a m --ring=")) ≡ None }
    ensures empty_word { line (words_of (codes "run a m --ring ")) ≡ None }
    ensures letter { line (words_of (codes "run a m --ring 8k")) ≡ None }
    ensures hexadecimal { line (words_of (codes "run a m --ring 0x8")) ≡ None }
    ensures word_behind_dashes { line (words_of (codes "soak -- 7")) ≡ Some (Soak 7) }
    ensures minus_behind_dashes { line (words_of (codes "soak -- -7")) ≡ None }
{}

/// Words that begin with `-`: behind `--` each is a name, and `-` alone is a name everywhere.
#[tactic(auto, unfolding(crate::proofs::OnWords::line_on_words))]
pub fn dashes()
    ensures dashes_first { line (words_of (codes "run -- a m"))
        ≡ Some (Run (codes "a") (codes "m") Window 2 defaults) }
    ensures dashes_between { line (words_of (codes "run a -- m"))
        ≡ Some (Run (codes "a") (codes "m") Window 2 defaults) }
    ensures options_behind_dashes { line (words_of (codes "run -- --ring --help"))
        ≡ Some (Run (codes "--ring") (codes "--help") Window 2 defaults) }
    ensures dashes_behind_dashes { line (words_of (codes "run -- a --"))
        ≡ Some (Run (codes "a") (codes "--") Window 2 defaults) }
    ensures option_before_dashes { line (words_of (codes "run --ring 8 -- a m"))
        ≡ Some (Run (codes "a") (codes "m") Window 2 (record defaults { ring = 8 })) }
    ensures one_dash { line (words_of (codes "run - m"))
        ≡ Some (Run (codes "-") (codes "m") Window 2 defaults) }
    ensures one_dash_as_value { line (words_of (codes "func a --input -"))
        ≡ Some (Func (codes "a") None (record defaults { input = Some (codes "-") })) }
    ensures attached_dash { line (words_of (codes "func a --input=-x"))
        ≡ Some (Func (codes "a") None (record defaults { input = Some (codes "-x") })) }
    ensures attached_dashes { line (words_of (codes "func a --input=--"))
        ≡ Some (Func (codes "a") None (record defaults { input = Some (codes "--") })) }
    ensures attached_equals { line (words_of (codes "func a --input=x=y"))
        ≡ Some (Func (codes "a") None (record defaults { input = Some (codes "x=y") })) }
    ensures dash_in_next_word { line (words_of (codes "func a --input -x")) ≡ None }
    ensures dashes_in_next_word { line (words_of (codes "func a --cycles --")) ≡ None }
    ensures option_in_next_word { line (words_of (codes "func a --input --cycles=2")) ≡ None }
{}

/// Words that make no line.
#[tactic(auto, unfolding(crate::proofs::OnWords::line_on_words))]
pub fn words_without_a_line()
    ensures no_words_at_all { line [] ≡ None }
    ensures unknown_command { line (words_of (codes "walk a m")) ≡ None }
    ensures command_in_capitals { line (words_of (codes "RUN a m")) ≡ None }
    ensures command_alone { line (words_of (codes "run")) ≡ None }
    ensures too_few_names { line (words_of (codes "run a")) ≡ None }
    ensures too_many_names { line (words_of (codes "run a m p")) ≡ None }
    ensures a_plan_too_many { line (words_of (codes "inorder a m p q")) ≡ None }
    ensures no_plan { line (words_of (codes "sched a m")) ≡ None }
    ensures empty_plan { line (words_of (codes "inorder a m ")) ≡ None }
    ensures no_machine { line (words_of (codes "sweep a")) ≡ None }
    ensures empty_command { line (words_of (codes " run a m")) ≡ None }
    ensures empty_name { line (words_of (codes "run  m")) ≡ None }
    ensures empty_last_name { line (words_of (codes "run a ")) ≡ None }
    ensures empty_machine { line (words_of (codes "sweep a m  n")) ≡ None }
    ensures empty_input { line (words_of (codes "func a --input ")) ≡ None }
    ensures empty_machine_file { line (words_of (codes "func a --machine=")) ≡ None }
    ensures empty_attached_input { line (words_of (codes "func a --input=")) ≡ None }
    ensures help_alone { line (words_of (codes "--help")) ≡ None }
    ensures help { line (words_of (codes "run --help")) ≡ None }
    ensures short_help { line (words_of (codes "run a m -h")) ≡ None }
    ensures version { line (words_of (codes "run a m --version")) ≡ None }
    ensures short_option { line (words_of (codes "run a m -r 8")) ≡ None }
    ensures number_as_option { line (words_of (codes "run a m -1")) ≡ None }
    ensures three_dashes { line (words_of (codes "run a m ---")) ≡ None }
    ensures dashes_with_a_value { line (words_of (codes "run a m --=8")) ≡ None }
    ensures beginning_of_an_option { line (words_of (codes "run a m --rin 8")) ≡ None }
    ensures option_in_capitals { line (words_of (codes "run a m --RING 8")) ≡ None }
    ensures option_with_one_dash { line (words_of (codes "run a m -ring 8")) ≡ None }
    ensures option_without_its_value { line (words_of (codes "run a m --ring")) ≡ None }
{}

/// A sweep has from 1 to 64 machines.
#[tactic(auto, unfolding(crate::proofs::OnWords::line_on_words))]
pub fn machines_of_a_sweep()
    ensures most { line (codes "sweep" ∷ codes "a" ∷ replicate 64 (codes "m"))
        ≡ Some (Sweep (codes "a") (replicate 64 (codes "m")) Window defaults) }
    ensures above { line (codes "sweep" ∷ codes "a" ∷ replicate 65 (codes "m")) ≡ None }
{}
