//! The program `fast`: it reads its words and the files that they name, simulates, and writes
//! output and report.
#![tactic(auto)]

mod answer;
mod program;
#[cfg(test)]
mod tests;

use std::process::ExitCode;

fn main(rt: HostRuntime) -> ExitCode {
    program::run_host(&rt, &rt)
}
