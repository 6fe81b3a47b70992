//! The members of a note, written one after the other. `Err` only when out of memory; some tokens may be there then.
ghost use Rattle.std.specs.Prelude.{◌≡◌, ◌++◌, ◌∷◌, [], IfOk, OnOk, codes, string_bytes};
ghost use Rattle.json.specs.Print.{print};
ghost use Rattle.json.specs.Token.{end_object};
ghost use Rattle.journal_notes.specs.inner.Front.{file_tokens, front_tokens};
ghost use Rattle.line_fields.specs.Written.{number_data};
ghost use Rattle.line_fields.specs.WrittenTokens.{member_tokens};
ghost use Rattle.serde_json.specs.Data.{string};

use json::Writer;
use line_fields::{code_str, written_text};
use rail_codes::{Code, Shape};
use std::alloc::{AllocError, Global};

/// Begins the object of a note: the number of its file, where there is one, the number of its line, and its word.
pub(crate) fn begin_note(
    alloc: Global,
    file: Option<u32>,
    line: u64,
    word: &str,
) -> Result<Writer, AllocError>
    ensures tokens { IfOk result (λ out. out.tokens ≡ front_tokens file line word.now) }
    ensures before { IfOk result (λ out. out.before ≡ []) }
{
    let mut out = Writer::new(Vec::new(alloc));
    out.begin_object()?;
    write_file(&mut out, file)?;
    write_number(&mut out, "line", line)?;
    write_text(&mut out, "note", word)?;
    Ok(out)
}

/// Writes the number of a file, where there is one.
fn write_file(out: &mut Writer, file: Option<u32>) -> Result<(), AllocError>
    ensures tokens { OnOk result (out.new.tokens ≡ out.old.tokens ++ file_tokens file) }
    ensures before { out.new.before ≡ out.old.before }
{
    match file {
        None => Ok(()),
        Some(number) => write_number(out, "file", u64::from(number)),
    }
}

/// Ends the object of a note, and gives its text.
pub(crate) fn end_note(out: Writer) -> Result<String, AllocError>
    requires { out.before ≡ [] }
    ensures { IfOk result (λ text. string_bytes text ≡ print (out.tokens ++ end_object ∷ [])) }
{
    let mut out = out;
    out.end_object()?;
    Ok(written_text(out))
}

/// Writes a text.
pub(crate) fn write_text(out: &mut Writer, name: &str, text: &str) -> Result<(), AllocError>
    ensures tokens { OnOk result (out.new.tokens ≡ out.old.tokens ++ member_tokens name.now (string text.now)) }
    ensures before { out.new.before ≡ out.old.before }
{
    out.key(name)?;
    out.string(text)
}

/// Writes a code.
pub(crate) fn write_code<S: Shape<ROOM>, const ROOM: usize>(
    out: &mut Writer,
    name: &str,
    code: &Code<S, ROOM>,
) -> Result<(), AllocError>
    ensures tokens { OnOk result (out.new.tokens ≡ out.old.tokens ++ member_tokens name.now (string code.now)) }
    ensures before { out.new.before ≡ out.old.before }
{
    write_text(out, name, code_str(code))
}

/// Writes a whole number.
pub(crate) fn write_number(out: &mut Writer, name: &str, number: u64) -> Result<(), AllocError>
    ensures tokens { OnOk result (out.new.tokens ≡ out.old.tokens ++ member_tokens name.now (number_data number)) }
    ensures before { out.new.before ≡ out.old.before }
{
    out.key(name)?;
    out.u64(number)
}
