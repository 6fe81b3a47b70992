//! Members of an object, written one after the other. `Err` only when out of memory; some tokens may be there then.
ghost use Rattle.std.specs.Prelude.{◌≡◌, ◌++◌, ◌∷◌, All, Ok, OnOk, codes};
ghost use Rattle.json.specs.Token.{begin_object};
ghost use Rattle.serde_json.specs.Data.{boolean, string};
ghost use Rattle.line_fields.specs.Written.{list_data, number_data};
ghost use Rattle.line_fields.specs.WrittenTokens.{member_tokens};
ghost use Rattle.checkpoint.specs.inner.Readable.{IsPromiseRead};
ghost use Rattle.checkpoint.specs.inner.Written.{AddsMoment, AddsMomentIfThere, tokens_if_there};

use json::Writer;
use line_fields::code_str;
use rail_codes::{Code, Moment, OrderId, Shape};
use std::alloc::{AllocError, Global};

/// Begins a line of the type of this name.
pub(crate) fn begin_line(out: &mut Writer, type_name: &str) -> Result<(), AllocError>
    ensures tokens { OnOk result (out.new.tokens ≡ out.old.tokens ++ begin_object ∷ member_tokens (codes "type") (string type_name.now)) }
    ensures before { out.new.before ≡ out.old.before }
{
    out.begin_object()?;
    out.key("type")?;
    out.string(type_name)
}

/// Writes a text.
pub(crate) fn write_text(out: &mut Writer, name: &str, text: &str) -> Result<(), AllocError>
    ensures tokens { OnOk result (out.new.tokens ≡ out.old.tokens ++ member_tokens name.now (string text.now)) }
    ensures before { out.new.before ≡ out.old.before }
{
    out.key(name)?;
    out.string(text)
}

/// Writes a code.
pub(crate) fn write_code<S: Shape<ROOM>, const ROOM: usize>(
    out: &mut Writer,
    name: &str,
    code: &Code<S, ROOM>,
) -> Result<(), AllocError>
    ensures tokens { OnOk result (out.new.tokens ≡ out.old.tokens ++ member_tokens name.now (string code.now)) }
    ensures before { out.new.before ≡ out.old.before }
    ensures reads { S.code_of code.now ≡ Ok code.now }
{
    write_text(out, name, code_str(code))
}

/// Writes a list of codes.
pub(crate) fn write_codes<S: Shape<ROOM>, const ROOM: usize>(
    out: &mut Writer,
    name: &str,
    items: &[Code<S, ROOM>],
) -> Result<(), AllocError>
    ensures tokens { OnOk result (out.new.tokens ≡ out.old.tokens ++ member_tokens name.now (list_data string items.now)) }
    ensures before { out.new.before ≡ out.old.before }
    ensures read { OnOk result (All (λ code. S.code_of code ≡ Ok code) items.now) }
{
    out.key(name)?;
    out.begin_array()?;
    for code in items {
        out.string(code_str(code))?;
    }
    out.end_array()
}

/// Writes a whole number.
pub(crate) fn write_number(out: &mut Writer, name: &str, number: u64) -> Result<(), AllocError>
    ensures tokens { OnOk result (out.new.tokens ≡ out.old.tokens ++ member_tokens name.now (number_data number)) }
    ensures before { out.new.before ≡ out.old.before }
{
    out.key(name)?;
    out.u64(number)
}

/// Writes true or false.
pub(crate) fn write_boolean(out: &mut Writer, name: &str, holds: bool) -> Result<(), AllocError>
    ensures tokens { OnOk result (out.new.tokens ≡ out.old.tokens ++ member_tokens name.now (boolean holds)) }
    ensures before { out.new.before ≡ out.old.before }
{
    out.key(name)?;
    out.boolean(holds)
}

/// Writes a moment.
pub(crate) fn write_moment(
    alloc: Global,
    out: &mut Writer,
    name: &str,
    moment: Moment,
) -> Result<(), AllocError>
    ensures tokens { OnOk result (AddsMoment name.now moment out.old.tokens out.new.tokens) }
    ensures before { out.new.before ≡ out.old.before }
{
    let text = moment.text(alloc)?;
    write_text(out, name, &text)
}

/// Writes a moment, where there is one.
pub(crate) fn write_moment_if_there(
    alloc: Global,
    out: &mut Writer,
    name: &str,
    moment: Option<Moment>,
) -> Result<(), AllocError>
    ensures tokens { OnOk result (AddsMomentIfThere name.now moment out.old.tokens out.new.tokens) }
    ensures before { out.new.before ≡ out.old.before }
{
    match moment {
        None => Ok(()),
        Some(moment) => write_moment(alloc, out, name, moment),
    }
}

/// Writes the order that a wagon is promised to, where there is one.
pub(crate) fn write_promise(out: &mut Writer, promise: Option<OrderId>) -> Result<(), AllocError>
    ensures tokens { OnOk result (out.new.tokens ≡ out.old.tokens ++ tokens_if_there (codes "promise") promise) }
    ensures before { out.new.before ≡ out.old.before }
    ensures read { IsPromiseRead promise }
{
    match promise {
        None => Ok(()),
        Some(order) => write_code(out, "promise", &order),
    }
}
