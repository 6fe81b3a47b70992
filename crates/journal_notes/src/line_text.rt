//! A note as a line of JSON.
ghost use Rattle.std.specs.Prelude.{◌≡◌, IfOk, codes, string_bytes};
ghost use Rattle.journal_notes.specs.NoteLine.{IsNoteText, ahead_members, cause_word, ended_members, number_members, object_text, order_members, overdue_members, pair_members, refused_members, text_members};

use crate::note::{
    EndCause, EndedPromise, HeardMessage, LatestOfOrder, NamedOrder, Note, OverdueOrder,
    RefusedMessage, WagonForOrder,
};
use crate::note_members::{begin_note, end_note, write_code, write_number, write_text};
use line_fields::code_str;
use rail_codes::OrderId;
use std::alloc::{AllocError, Global};

/// A note at the line of this number, as an object of JSON, without a line feed: the file of that number, where one is given, the
/// line, the word that says what kind the note is of, and its members. `Err` only when out of memory.
pub fn note_line(
    alloc: Global,
    file: Option<u32>,
    line: u64,
    note: &Note,
) -> Result<String, AllocError>
    ensures { IfOk result (λ text. IsNoteText file line note.now (string_bytes text)) }
{
    match note {
        Note::Promised(pair) => pair_line(alloc, file, line, "promised", pair),
        Note::Complete(named) => named_line(alloc, file, line, "complete", named),
        Note::Delivered(pair) => pair_line(alloc, file, line, "delivered", pair),
        Note::Filled(filled) => {
            number_line(
                alloc,
                file,
                line,
                "filled",
                &filled.order,
                "late",
                filled.late,
            )
        }
        Note::Ended(ended) => ended_line(alloc, file, line, ended),
        Note::Short(short) => {
            let missing = u64::from(short.missing);
            number_line(alloc, file, line, "short", &short.order, "missing", missing)
        }
        Note::Refused(message) => refused_line(alloc, file, line, message),
        Note::UnknownPlace(order) => {
            text_line(
                alloc,
                file,
                line,
                "place",
                &order.order,
                "place",
                code_str(&order.place),
            )
        }
        Note::NoClass(named) => named_line(alloc, file, line, "class", named),
        Note::NoCarrier(order) => {
            let load = u64::from(order.load);
            number_line(alloc, file, line, "load", &order.order, "load", load)
        }
        Note::Past(order) => past_line(alloc, file, line, order),
        Note::Overdue(order) => overdue_line(alloc, file, line, order),
        Note::Ahead(message) => ahead_line(alloc, file, line, message),
    }
}

/// A note with an order alone.
fn named_line(
    alloc: Global,
    file: Option<u32>,
    line: u64,
    word: &str,
    named: &NamedOrder,
) -> Result<String, AllocError>
    ensures { IfOk result (λ text. string_bytes text ≡ object_text file line word.now (order_members named.now.order)) }
{
    let mut out = begin_note(alloc, file, line, word)?;
    write_code(&mut out, "order", &named.order)?;
    end_note(out)
}

/// A note with a wagon and its order.
fn pair_line(
    alloc: Global,
    file: Option<u32>,
    line: u64,
    word: &str,
    pair: &WagonForOrder,
) -> Result<String, AllocError>
    ensures { IfOk result (λ text. string_bytes text ≡ object_text file line word.now (pair_members pair.now)) }
{
    let mut out = begin_note(alloc, file, line, word)?;
    write_code(&mut out, "wagon", &pair.wagon)?;
    write_code(&mut out, "order", &pair.order)?;
    end_note(out)
}

/// A note with an order and a number.
fn number_line(
    alloc: Global,
    file: Option<u32>,
    line: u64,
    word: &str,
    order: &OrderId,
    name: &str,
    number: u64,
) -> Result<String, AllocError>
    ensures { IfOk result (λ text. string_bytes text ≡ object_text file line word.now (number_members order.now name.now number)) }
{
    let mut out = begin_note(alloc, file, line, word)?;
    write_code(&mut out, "order", order)?;
    write_number(&mut out, name, number)?;
    end_note(out)
}

/// A note with an order and a text.
fn text_line(
    alloc: Global,
    file: Option<u32>,
    line: u64,
    word: &str,
    order: &OrderId,
    name: &str,
    text: &str,
) -> Result<String, AllocError>
    ensures { IfOk result (λ made. string_bytes made ≡ object_text file line word.now (text_members order.now name.now text.now)) }
{
    let mut out = begin_note(alloc, file, line, word)?;
    write_code(&mut out, "order", order)?;
    write_text(&mut out, name, text)?;
    end_note(out)
}

/// The note of a promise that ended.
fn ended_line(
    alloc: Global,
    file: Option<u32>,
    line: u64,
    ended: &EndedPromise,
) -> Result<String, AllocError>
    ensures { IfOk result (λ text. string_bytes text ≡ object_text file line (codes "ended") (ended_members ended.now)) }
{
    let mut out = begin_note(alloc, file, line, "ended")?;
    write_code(&mut out, "wagon", &ended.wagon)?;
    write_code(&mut out, "order", &ended.order)?;
    write_text(&mut out, "why", cause_word(ended.cause))?;
    end_note(out)
}

/// Why a promise ended, in a word.
fn cause_word(cause: EndCause) -> &'static str
    ensures { result.now ≡ cause_word cause }
{
    match cause {
        EndCause::Held => "held",
        EndCause::Elsewhere => "elsewhere",
        EndCause::Withdrawn => "withdrawn",
    }
}

/// The note of a refused message.
fn refused_line(
    alloc: Global,
    file: Option<u32>,
    line: u64,
    message: &RefusedMessage,
) -> Result<String, AllocError>
    ensures { IfOk result (λ text. IsNoteText file line (Note.Refused message.now) (string_bytes text)) }
{
    let last = message.last.text(alloc)?;
    let since = message.since.text(alloc)?;
    refused_text(alloc, file, line, message, &last, &since)
}

/// The note of a refused message, with the texts of its moments.
fn refused_text(
    alloc: Global,
    file: Option<u32>,
    line: u64,
    message: &RefusedMessage,
    last: &str,
    since: &str,
) -> Result<String, AllocError>
    ensures { IfOk result (λ text. string_bytes text ≡ object_text file line (codes "refused") (refused_members message.now last.now since.now)) }
{
    let mut out = begin_note(alloc, file, line, "refused")?;
    write_number(&mut out, "number", u64::from(message.number))?;
    write_code(&mut out, "wagon", &message.wagon)?;
    write_text(&mut out, "status", message.status.word())?;
    write_code(&mut out, "place", &message.place)?;
    write_text(&mut out, "last", last)?;
    write_number(&mut out, "times", message.times)?;
    write_text(&mut out, "since", since)?;
    end_note(out)
}

/// The note of an order whose latest moment is past.
fn past_line(
    alloc: Global,
    file: Option<u32>,
    line: u64,
    order: &LatestOfOrder,
) -> Result<String, AllocError>
    ensures { IfOk result (λ text. IsNoteText file line (Note.Past order.now) (string_bytes text)) }
{
    let latest = order.latest.text(alloc)?;
    text_line(alloc, file, line, "past", &order.order, "latest", &latest)
}

/// The note of an order that became overdue.
fn overdue_line(
    alloc: Global,
    file: Option<u32>,
    line: u64,
    order: &OverdueOrder,
) -> Result<String, AllocError>
    ensures { IfOk result (λ text. IsNoteText file line (Note.Overdue order.now) (string_bytes text)) }
{
    let latest = order.latest.text(alloc)?;
    overdue_text(alloc, file, line, order, &latest)
}

/// The note of an order that became overdue, with the text of its latest moment.
fn overdue_text(
    alloc: Global,
    file: Option<u32>,
    line: u64,
    order: &OverdueOrder,
    latest: &str,
) -> Result<String, AllocError>
    ensures { IfOk result (λ text. string_bytes text ≡ object_text file line (codes "overdue") (overdue_members order.now latest.now)) }
{
    let mut out = begin_note(alloc, file, line, "overdue")?;
    write_code(&mut out, "order", &order.order)?;
    write_text(&mut out, "latest", latest)?;
    write_number(&mut out, "missing", u64::from(order.missing))?;
    write_number(&mut out, "promised", order.promised as u64)?;
    end_note(out)
}

/// The note of a message that is ahead.
fn ahead_line(
    alloc: Global,
    file: Option<u32>,
    line: u64,
    message: &HeardMessage,
) -> Result<String, AllocError>
    ensures { IfOk result (λ text. IsNoteText file line (Note.Ahead message.now) (string_bytes text)) }
{
    let moment = message.moment.text(alloc)?;
    ahead_text(alloc, file, line, message, &moment)
}

/// The note of a message that is ahead, with the text of its moment.
fn ahead_text(
    alloc: Global,
    file: Option<u32>,
    line: u64,
    message: &HeardMessage,
    moment: &str,
) -> Result<String, AllocError>
    ensures { IfOk result (λ text. string_bytes text ≡ object_text file line (codes "ahead") (ahead_members message.now moment.now)) }
{
    let mut out = begin_note(alloc, file, line, "ahead")?;
    write_number(&mut out, "of", message.line)?;
    write_code(&mut out, "wagon", &message.wagon)?;
    write_text(&mut out, "moment", moment)?;
    end_note(out)
}
