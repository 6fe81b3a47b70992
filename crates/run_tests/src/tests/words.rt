//! What no script shows of the program's words: the text of an argument that is no text, and the numbers of options, since no
//! reply depends on the number of workers, and none shows 100,000 entries.

use clap::Error;
use command_line::{Word, not_utf8, read_words};
use std::alloc::{AllocError, Global};
use std::test::Fail;

/// Whether an error prints this fault above this usage, and stands for exit status 2.
fn is_printed(alloc: Global, error: &Error, fault: &str, usage: &str) -> Result<bool, AllocError> {
    let printed = format!(in alloc; "{error}")?;
    let text = format!(in alloc;
        "error: {fault}\n\nUsage: {usage}\n\nFor more information, try '--help'.\n"
    )?;
    Ok(printed == text && error.exit_code() == 2)
}

#[test]
fn arguments_that_are_no_text(rt: HostRuntime) -> Result<(), Fail> {
    let error = not_utf8(rt.alloc())?;
    let fault = "invalid UTF-8 was detected in one or more arguments";
    assert!(rt; is_printed(rt.alloc(), &error, fault, "wagons [COMMAND]")?);
    Ok(())
}

/// Calls, each with the numbers of entries, of kept problems and of workers that it asks for.
const CALLS: &[(&str, (u64, u32, usize))] = &[
    ("wagons run --roster r.csv --network n.csv", (100_000, 8, 4)),
    (
        "wagons run --roster=r --network=n --entries=1 --kept=1 --workers=1",
        (1, 1, 1),
    ),
    (
        "wagons run --roster=r --network=n --entries 1000000 --kept 64 --workers 64",
        (1_000_000, 64, 64),
    ),
];

/// Whether a word asks for these numbers.
fn has_numbers(word: &Word<'_>, (entries, kept, workers): (u64, u32, usize)) -> bool {
    match word {
        Word::Run(options) => {
            let office = &options.office;
            office.limits.entries() == entries
                && office.limits.kept() == kept
                && office.workers == workers
        }
        _ => false,
    }
}

/// Whether a call asks for these numbers.
fn asks(alloc: Global, call: &str, numbers: (u64, u32, usize)) -> Result<bool, AllocError> {
    let words: Vec<&str> = call.split_whitespace().collect(alloc)?;
    match read_words(alloc, "", words.as_slice()) {
        Ok(word) => Ok(has_numbers(&word, numbers)),
        Err(_) => Ok(false),
    }
}

#[test]
fn numbers_of_options(rt: HostRuntime) -> Result<(), Fail> {
    for (call, numbers) in CALLS {
        assert!(rt; asks(rt.alloc(), call, *numbers)?, "{call}");
    }
    Ok(())
}
