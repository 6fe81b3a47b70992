//! What is said behind a fault of the arguments, if clap's own text doesn't say what is wanted.

use clap::Error;
use clap::error::ErrorKind;
use std::alloc::{AllocError, Global};

/// Behind a file's name that is given to a word that reads standard input.
const FROM_INPUT: &str =
    "hint: a word reads its lines from standard input; read a file with `<`, as in\n\
     `wagons check < tables.jsonl`";

/// Each option that is a number, as faults name it, and what it must be.
const RANGES: [(&str, &str); 8] = [
    ("'--entries <N>'", "hint: a whole number from 1 to 1000000"),
    ("'--kept <N>'", "hint: a whole number from 1 to 64"),
    ("'--workers <N>'", "hint: a whole number from 1 to 64"),
    ("'--upto <N>'", "hint: a whole number from 1 to 1000000"),
    ("'--silent <N>'", "hint: a whole number from 1 to 100000"),
    ("'--line <N>'", "hint: a whole number from 1 to 1000000"),
    ("'--near <N>'", "hint: a whole number from 1 to 1000"),
    (
        "'--line-bytes <N>'",
        "hint: a whole number from 1 to 67108864",
    ),
];

/// What is said behind a fault of the arguments: how a word reads a file, if a file's name was given to it; which numbers an
/// option takes, if it was given none. Nothing if clap's text says it. `Err` only when out of memory.
pub fn hint(alloc: Global, error: &Error) -> Result<Option<&'static str>, AllocError> {
    let text = format!(in alloc; "{error}")?;
    match error.kind() {
        ErrorKind::UnknownArgument => Ok(file_hint(text.as_str())),
        ErrorKind::InvalidSubcommand => Ok(file_hint(text.as_str())),
        ErrorKind::ValueValidation => Ok(range_hint(text.as_str())),
        _ => Ok(None),
    }
}

/// Behind an unexpected argument that is no option, or a word that has a dot as a file's name has.
fn file_hint(text: &str) -> Option<&'static str> {
    let (_, behind) = text.split_once('\'')?;
    let (argument, _) = behind.split_once('\'')?;
    if argument.starts_with('-') || !argument.contains('.') {
        None
    } else {
        Some(FROM_INPUT)
    }
}

/// Behind a value that is no number.
fn range_hint(text: &str) -> Option<&'static str> {
    if text.contains(" is not in ") {
        return None;
    }
    for (option, hint) in &RANGES {
        if text.contains(*option) {
            return Some(hint);
        }
    }
    None
}
