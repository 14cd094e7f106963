//! The workbench at the terminal: commands from standard input, answers to standard output.
#![tactic(auto)]

use command_line::program;
use std::io;
use std::process::ExitCode;

fn main(rt: HostRuntime) -> ExitCode {
    program(&rt, &mut rt.reader(), &mut io::writer(&rt))
}
