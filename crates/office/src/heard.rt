//! The note of a message that is ahead of those around it. `Err` only when out of memory; part of the text may be there then.
ghost use Rattle.std.specs.Prelude.{OnOk, string_bytes};
ghost use Rattle.reply_texts.specs.Lines.{Adds};
ghost use Rattle.office.specs.AheadNotes.{AheadNotes};

use crate::note_text::{end_note, push_head};
use journal_notes::{Heard, is_ahead};
use rail_codes::Moment;
use reply_texts::line_words::{push_code, push_moment, push_number};
use std::alloc::AllocError;

/// Adds, at the line of a message of this moment, the note that the message before it is ahead.
pub(crate) fn push_ahead_note(
    text: &mut String,
    line: u64,
    heard: &Heard,
    after: Moment,
) -> Result<(), AllocError>
    ensures { OnOk result (Adds (AheadNotes line heard.now after) (string_bytes text.old) (string_bytes text.new)) }
{
    let Some(before) = heard.before_last else {
        return Ok(());
    };
    let Some(this) = heard.last else {
        return Ok(());
    };
    if !is_ahead(before.moment, this.moment, after) {
        return Ok(());
    }
    push_head(text, line, "ahead")?;
    push_number(text, this.line)?;
    push_code(text, this.wagon.digits())?;
    push_moment(text, this.moment)?;
    end_note(text)
}
