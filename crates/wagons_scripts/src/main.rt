//! Plays scripts through the program's command line: each is printed again, with what its commands print in place of what they
//! must print. So where the output is the scripts themselves, every command did as its script says. What a script looks like
//! stands in `tools/scripts`, which plays all of them through the real program and sees standard error too.
#![tactic(auto)]

use anyhow::Result;
use line_engine::StdDevice;
use office_files::FileSystem;
use std::rt::Runtime;
use std::sync::Wait;
use std::thread::Threads;
use std::{fs, io};
use wagons_program::run_words;

/// The version that the program is told. No script asks for it.
const VERSION: &str = "0.0.0";

fn main(rt: HostRuntime) -> Result<()> {
    let names = fs::read_to_string(&rt, "scripts.txt")?;
    for name in names.lines() {
        let script = fs::read_to_string(&rt, name)?;
        play(&rt, &rt, &script)?;
    }
    Ok(())
}

/// Plays a script. What a command prints takes the place of the lines between its input and its standard error.
fn play<H: Runtime, R: FileSystem + Eprint + Threads + Wait + AllocGlobal + Sync>(
    host: &H,
    rt: &R,
    script: &str,
) -> Result<()> {
    let mut command = "";
    let mut given = String::new(rt.alloc());
    let mut errors = String::new(rt.alloc());
    for line in script.lines() {
        if command.is_empty() || line.starts_with("< ") {
            println!(host; "{line}")?;
        }
        if let Some(call) = line.strip_prefix("$ ") {
            command = call;
        } else if let Some(more) = line.strip_prefix("< ") {
            given.push_str(more)?;
            given.push('\n')?;
        } else if line.starts_with("! ") {
            errors.push_str(line)?;
            errors.push('\n')?;
        } else if line.starts_with("status ") {
            let status = status_of(host, rt, command, &given)?;
            println!(host; "{errors}status {status}")?;
            command = "";
            given.clear();
            errors.clear();
        }
    }
    Ok(())
}

/// The exit status of a command, whose standard input is the file behind ` < `, or else what is given.
fn status_of<H: Runtime, R: FileSystem + Eprint + Threads + Wait + AllocGlobal + Sync>(
    host: &H,
    rt: &R,
    command: &str,
    given: &str,
) -> Result<u8> {
    let Some((call, file)) = command.split_once(" < ") else {
        return status_over(host, rt, command, given.as_bytes());
    };
    let input = fs::read(host, file)?;
    status_over(host, rt, call, &input)
}

/// The exit status of a call over this standard input.
fn status_over<H: Runtime, R: FileSystem + Eprint + Threads + Wait + AllocGlobal + Sync>(
    host: &H,
    rt: &R,
    call: &str,
    input: &[u8],
) -> Result<u8> {
    let words: Vec<&str> = call.split_whitespace().collect(rt.alloc())?;
    let mut output = StdDevice::new(io::writer(host));
    Ok(run_words(rt, VERSION, words.as_slice(), input, &mut output))
}
