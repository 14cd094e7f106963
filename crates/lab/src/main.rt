//! Pictures and tables of hot-spot experiments.
#![tactic(auto)]

use lab_tasks::{Terminals, program};
use std::io::IsTerminal;
use std::process::ExitCode;

fn main(rt: HostRuntime) -> ExitCode {
    let terminals = Terminals {
        input: rt.stdin().is_terminal(),
        errors: rt.stderr().is_terminal(),
    };
    program(&rt, terminals)
}
