//! The lists of a table line, read in one pass over its tokens. Its members may stand in any order.

ghost use Rattle.std.specs.Prelude.{◌≡◌, ◌<◌, ⊤, IfSome, OnSome, Ok, Some, length, option_map};
ghost use Rattle.json.specs.Json.{read_key};
ghost use Rattle.serde_json.specs.Data.{Members, object};
ghost use Rattle.line_fields.specs.Line.{object_of};
ghost use Rattle.table_lines.specs.inner.Tokens.{Spells};
ghost use Rattle.table_lines.specs.inner.FoundLists.{Hold, IsFilled, TakesMember, TakesMembers};

use crate::tokens::{
    LackToken, NumberToken, ORDER, PairToken, RowToken, TokenKind, WAGON, take_list, take_number,
};
use cost_table::MAX_COST;
use json::{Reader, Scratch, Token};
use rail_codes::{OrderId, WagonNumber};
use std::alloc::Global;

/// How the lines begin that are read here.
const OPENING: &[u8] = b"{\"";

/// The lists of a table line that have been read so far.
#[derive(Drop)]
pub(crate) struct FoundLists {
    pub wagons: Option<Vec<WagonNumber>>,
    pub orders: Option<Vec<OrderId>>,
    pub cells: Option<Vec<Vec<Option<u64>>>>,
    pub penalties: Option<Vec<u64>>,
    pub lacks: Option<Vec<u32>>,
    pub pairs: Option<Vec<(WagonNumber, OrderId)>>,
    pub u: Option<Vec<u64>>,
    pub v: Option<Vec<u64>>,
}

/// The lists that stand in a line. `None` where the line begins otherwise than most do, where a member stands twice, is
/// refused or has a name that no table's member has, and where memory is refused.
pub(crate) fn lists_of_line(alloc: Global, bytes: &[u8]) -> Option<FoundLists>
    ensures { IfSome result (λ lists. (ms : Members) × Hold lists ms × (object_of bytes.now ≡ Ok (object ms))) }
{
    if !bytes.starts_with(OPENING) {
        return None;
    }
    match simdutf8::basic::from_utf8(bytes) {
        Ok(text) => lists_of_text(alloc, text),
        Err(_) => None,
    }
}

/// The lists that stand in a text. A function of its own that begins with the memory for reading, since that is large and
/// a function clears its locals at entry: so it is cleared once, and for no line that begins otherwise.
fn lists_of_text(alloc: Global, text: &str) -> Option<FoundLists>
    ensures { IfSome result (λ lists. (ms : Members) × Hold lists ms × (object_of text.now ≡ Ok (object ms))) }
{
    let mut scratch = Scratch::new(alloc);
    let Ok(mut reader) = Reader::new(text, &mut scratch) else {
        return None;
    };
    let Token::BeginObject = reader.next()? else {
        return None;
    };
    let lists = take_lists(alloc, &mut reader)?;
    if reader.next().is_some() {
        return None;
    }
    Some(lists)
}

/// The lists of the object whose members come next, and the brace behind them.
fn take_lists(alloc: Global, reader: &mut Reader<'_>) -> Option<FoundLists>
    ensures { IfSome result (TakesMembers reader.old reader.new) }
{
    let mut lists = FoundLists {
        wagons: None,
        orders: None,
        cells: None,
        penalties: None,
        lacks: None,
        pairs: None,
        u: None,
        v: None,
    };
    'members: while let Some(name) = take_key(reader)? {
        take_member(alloc, reader, name, &mut lists)?;
    }
    Some(lists)
}

/// The name of the next member, or `None` behind the last one.
fn take_key<'a>(reader: &mut Reader<'a>) -> Option<Option<&'a str>>
    ensures key { IfSome result (λ key. read_key reader.old ≡ Some (option_map (λ name. name.now) key, reader.new)) }
    ensures shorter { OnSome result (length reader.new < length reader.old) }
{
    match reader.next_key() {
        Ok(key) => Some(key),
        Err(_) => None,
    }
}

/// Reads the value of a member of this name into its list. A plan's cost is passed over.
fn take_member(
    alloc: Global,
    reader: &mut Reader<'_>,
    name: &str,
    lists: &mut FoundLists,
) -> Option<()>
    ensures member { OnSome result (TakesMember name.now lists.old lists.new reader.old reader.new) }
    ensures shorter { OnSome result (length reader.new < length reader.old) }
{
    let costs = NumberToken { high: MAX_COST };
    let prices = NumberToken { high: u64::MAX };
    match name {
        "wagons" => fill(alloc, reader, &WAGON, &mut lists.wagons),
        "orders" => fill(alloc, reader, &ORDER, &mut lists.orders),
        "cells" => fill(alloc, reader, &RowToken, &mut lists.cells),
        "penalties" => fill(alloc, reader, &costs, &mut lists.penalties),
        "lacks" => fill(alloc, reader, &LackToken, &mut lists.lacks),
        "pairs" => fill(alloc, reader, &PairToken, &mut lists.pairs),
        "u" => fill(alloc, reader, &prices, &mut lists.u),
        "v" => fill(alloc, reader, &prices, &mut lists.v),
        "cost" => skip_number(reader),
        _ => None,
    }
}

/// Reads the list that comes next into a slot that is still empty.
fn fill<K: TokenKind>(
    alloc: Global,
    reader: &mut Reader<'_>,
    kind: &K,
    slot: &mut Option<Vec<K::Item>>,
) -> Option<()>
    ensures filled { OnSome result (IsFilled (K.nests kind.now) (K.reads kind.now) slot.old slot.new reader.old reader.new) }
    ensures shorter { OnSome result (length reader.new < length reader.old) }
{
    if slot.is_some() {
        return None;
    }
    *slot = Some(take_list(alloc, reader, kind)?);
    Some(())
}

/// Passes over a whole number.
fn skip_number(reader: &mut Reader<'_>) -> Option<()>
    ensures number { OnSome result (Spells 0 (λ _. ⊤) reader.old reader.new) }
    ensures shorter { OnSome result (length reader.new < length reader.old) }
{
    take_number(reader)?;
    Some(())
}
