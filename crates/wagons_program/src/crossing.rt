//! What is said of two files that move one wagon.

use rail_codes::push_ascii;
use sessions::Crossing;
use std::alloc::{AllocError, Global};

/// Says on standard error that two files of a feed move one wagon, where they do: messages of it refuse each other then, since the
/// order of the lines of two files isn't kept.
pub(crate) fn tell_crossing<R: Eprint + AllocGlobal>(rt: &R, crossing: Option<Crossing>) {
    if let Some(crossing) = crossing {
        // Where memory or standard error fails, the report is printed all the same.
        let _ = say_crossing(rt, &crossing);
    }
}

/// The same. `Err` where memory for the wagon's number is refused.
fn say_crossing<R: Eprint + AllocGlobal>(rt: &R, crossing: &Crossing) -> Result<(), AllocError> {
    let wagon = wagon_text(rt.alloc(), crossing)?;
    let (moving, refused) = (crossing.moved_in, crossing.refused_in);
    let _ = eprintln!(rt;
        "note: file {moving} moves wagon {wagon}, of which file {refused} had a message refused; one file should have all messages of a wagon (examples/merge.py merges complete files)"
    );
    Ok(())
}

/// The wagon's number.
fn wagon_text(alloc: Global, crossing: &Crossing) -> Result<String, AllocError> {
    let mut text = String::new(alloc);
    push_ascii(&mut text, crossing.wagon.as_bytes())?;
    Ok(text)
}
