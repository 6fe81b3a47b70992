//! Lists and numbers under their names, written as tokens of JSON. `Err` only when out of memory; some tokens may be
//! there then.

ghost use Rattle.std.specs.Prelude.{◌≡◌, ◌++◌, ◌^◌, ◌<◌, Ok, All, OnOk};
ghost use Rattle.serde_json.specs.Data.{Data, string};
ghost use Rattle.line_fields.specs.Values as values;
ghost use Rattle.line_fields.specs.Written as written;
ghost use Rattle.line_fields.specs.WrittenTokens.{data_tokens, member_tokens};

use json::Writer;
use line_fields::code_str;
use rail_codes::{Code, OrderId, Shape, WagonNumber};
use std::alloc::AllocError;

/// What may be an item of a list that is written.
pub(crate) trait ListItem {
    /// What an item is written as.
    ghost json: { Self → Data };

    /// What holds of each item: how it reads, or its limit.
    ghost holds: { Self → Type 0 };

    /// Writes the item.
    fn write(&self, out: &mut Writer) -> Result<(), AllocError>
        ensures tokens { OnOk result (out.new.tokens ≡ out.old.tokens ++ data_tokens (json self.now)) }
        ensures before { out.new.before ≡ out.old.before }
        ensures holds { OnOk result (holds self.now) };
}

impl<S: Shape<ROOM>, const ROOM: usize> ListItem for Code<S, ROOM> {
    ghost json = { string };

    ghost holds = { λ code. values.code_from S.code_of (string code) ≡ Ok code };

    #[tactic(auto, unfolding(line_fields::specs::Values::code_from, line_fields::specs::Values::text_of))]
    fn write(&self, out: &mut Writer) -> Result<(), AllocError> {
        out.string(code_str(self))
    }
}

impl ListItem for (WagonNumber, OrderId) {
    ghost json = { written.pair_data };

    ghost holds = { λ pair. values.wagon_and_order (written.pair_data pair) ≡ Ok pair };

    fn write(&self, out: &mut Writer) -> Result<(), AllocError> {
        let (number, id) = *self;
        write_pair(out, number, id)
    }
}

/// Writes a wagon and an order, as a list of two texts.
fn write_pair(out: &mut Writer, number: WagonNumber, id: OrderId) -> Result<(), AllocError>
    ensures tokens { OnOk result (out.new.tokens ≡ out.old.tokens ++ data_tokens (written.pair_data (number, id))) }
    ensures before { out.new.before ≡ out.old.before }
    ensures reads { OnOk result (values.wagon_and_order (written.pair_data (number, id)) ≡ Ok (number, id)) }
{
    let wagon = code_str(&number);
    let order = code_str(&id);
    out.begin_array()?;
    out.string(wagon)?;
    out.string(order)?;
    out.end_array()
}

impl ListItem for u64 {
    ghost json = { written.number_data };

    ghost holds = { λ n. n < 2 ^ 64 };

    fn write(&self, out: &mut Writer) -> Result<(), AllocError> {
        let number = *self;
        out.u64(number)
    }
}

impl ListItem for u32 {
    ghost json = { written.number_data };

    ghost holds = { λ n. n < 2 ^ 64 };

    fn write(&self, out: &mut Writer) -> Result<(), AllocError> {
        let number = *self;
        out.u64(u64::from(number))
    }
}

impl ListItem for Option<u64> {
    ghost json = { written.number_or_null };

    ghost holds = { λ _. Unit {0} };

    fn write(&self, out: &mut Writer) -> Result<(), AllocError> {
        match *self {
            Some(number) => out.u64(number),
            None => out.null(),
        }
    }
}

impl ListItem for Vec<Option<u64>> {
    ghost json = { λ row. written.list_data written.number_or_null row.items };

    ghost holds = { λ _. Unit {0} };

    fn write(&self, out: &mut Writer) -> Result<(), AllocError> {
        write_items(out, self)
    }
}

/// Writes a list.
fn write_items<T: ListItem>(out: &mut Writer, items: &[T]) -> Result<(), AllocError>
    ensures tokens { OnOk result (out.new.tokens ≡ out.old.tokens ++ data_tokens (written.list_data T.json items.now)) }
    ensures before { out.new.before ≡ out.old.before }
    ensures holds { OnOk result (All T.holds items.now) }
{
    out.begin_array()?;
    for item in items {
        item.write(out)?;
    }
    out.end_array()
}

/// Writes a list under a name.
pub(crate) fn write_list<T: ListItem>(
    out: &mut Writer,
    name: &str,
    items: &[T],
) -> Result<(), AllocError>
    ensures tokens { OnOk result (out.new.tokens ≡ out.old.tokens ++ member_tokens name.now (written.list_data T.json items.now)) }
    ensures before { out.new.before ≡ out.old.before }
    ensures holds { OnOk result (All T.holds items.now) }
{
    out.key(name)?;
    write_items(out, items)
}

/// Writes a whole number under a name.
pub(crate) fn write_number(out: &mut Writer, name: &str, number: u64) -> Result<(), AllocError>
    ensures tokens { OnOk result (out.new.tokens ≡ out.old.tokens ++ member_tokens name.now (written.number_data number)) }
    ensures before { out.new.before ≡ out.old.before }
{
    out.key(name)?;
    out.u64(number)
}
