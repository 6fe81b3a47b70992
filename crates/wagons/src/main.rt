//! `wagons`: the fleet office on a command line.
#![tactic(auto)]

mod version;

use crate::version::VERSION;
use line_engine::StdDevice;
use std::io::IsTerminal;
use std::process::ExitCode;
use std::rt::Runtime;
use std::{env, io};
use wagons_program::{Terminal, run_program};

// Only `main` has a runtime whose files may be handed to threads: it hands in what the system gives.
fn main(rt: HostRuntime) -> ExitCode {
    let input = rt.reader();
    let is_terminal = input.is_terminal();
    let terminal = Terminal { input, is_terminal };
    let arguments = arguments_of(&rt);
    let mut output = StdDevice::new(io::writer(&rt));
    ExitCode::from(run_program(&rt, VERSION, arguments, terminal, &mut output))
}

/// The program's arguments, its name first.
fn arguments_of<R: Runtime + AllocGlobal>(rt: &R) -> io::Result<Vec<String>> {
    let words: Vec<String> = env::args(rt)?.collect(rt.alloc())?;
    Ok(words)
}
