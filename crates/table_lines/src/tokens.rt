//! Values that are read straight off the tokens of a line.

ghost use Rattle.std.specs.Prelude.{◌≡◌, ◌∷◌, ◌<◌, ℕ, List, suc, Ok, Some, IfSome, OnSome, length};
ghost use Rattle.json.specs.Token as token;
ghost use Rattle.serde_json.specs.Data.{Data, unsigned};
ghost use Rattle.serde_json.specs.Read.{number_of};
ghost use Rattle.move_messages.specs.OrderLimits.{max_order_wagons};
ghost use Rattle.line_fields.specs.Values as values;
ghost use Rattle.table_lines.specs.TableLine as meaning;
ghost use Rattle.table_lines.specs.inner.Tokens.{IsListOf, Spells, SpellsItems};

use cost_table::MAX_COST;
use fast_float::Numeral;
use json::{Reader, Token};
use move_messages::MAX_ORDER_WAGONS;
use rail_codes::{FromText, OrderId, WagonNumber};
use std::alloc::Global;
use std::marker::PhantomData;

/// Room for the items of a short list, so that its memory is asked for once.
const FIRST_ROOM: usize = 8;

/// How a value is read off the tokens. `None` may be the answer to any tokens.
pub(crate) trait TokenKind {
    /// What a value is read as.
    type Item: Drop;

    /// That a value is read as this item.
    ghost reads: { Self → Data → Self.Item → Type 0 };

    /// How deep lists may nest in a value.
    ghost nests: { Self → ℕ };

    /// The item that the next tokens spell.
    fn take(&self, alloc: Global, reader: &mut Reader<'_>) -> Option<Self::Item>
        ensures value { IfSome result (λ item. Spells (nests self.now) (λ d. reads self.now d item) reader.old reader.new) }
        ensures shorter { OnSome result (length reader.new < length reader.old) };
}

/// The text that comes next.
fn take_text<'a>(reader: &mut Reader<'a>) -> Option<&'a str>
    ensures { IfSome result (λ text. reader.old ≡ token.string text.now ∷ reader.new) }
{
    match reader.next()? {
        Token::String(text) => Some(text),
        _ => None,
    }
}

/// The whole number that a number's text writes, where it has no minus.
fn whole_number(text: &str) -> Option<u64>
    ensures { IfSome result (λ n. number_of text.now ≡ Some (unsigned n)) }
{
    let bytes = text.as_bytes();
    if bytes.is_empty() || bytes[0] == b'-' {
        return None;
    }
    Numeral::scan(bytes).to_u64()
}

/// The whole number that comes next.
pub(crate) fn take_number(reader: &mut Reader<'_>) -> Option<u64>
    ensures value { IfSome result (λ n. (s : List ℕ) × (reader.old ≡ token.number s ∷ reader.new) × (number_of s ≡ Some (unsigned n))) }
    ensures shorter { OnSome result (length reader.new < length reader.old) }
{
    match reader.next()? {
        Token::Number(text) => whole_number(text),
        _ => None,
    }
}

/// Codes of one type.
pub(crate) struct CodeToken<C> {
    code: PhantomData<C>,
}

/// Wagon numbers.
pub(crate) const WAGON: CodeToken<WagonNumber> = CodeToken { code: PhantomData };
/// Names of orders.
pub(crate) const ORDER: CodeToken<OrderId> = CodeToken { code: PhantomData };

impl<C: FromText> TokenKind for CodeToken<C> {
    type Item = C;

    ghost reads = { λ _ d code. values.code_from C.meaning d ≡ Ok code };

    ghost nests = { λ _. 0 };

    fn take(&self, _alloc: Global, reader: &mut Reader<'_>) -> Option<C> {
        let text = take_text(reader)?;
        match C::from_text(text) {
            Ok(code) => Some(code),
            Err(_) => None,
        }
    }
}

/// Whole numbers up to `high`.
#[derive(Clone, Copy)]
pub(crate) struct NumberToken {
    pub high: u64,
}

impl TokenKind for NumberToken {
    type Item = u64;

    ghost reads = { λ k d n. values.number_within 0 k.high d ≡ Ok n };

    ghost nests = { λ _. 0 };

    fn take(&self, _alloc: Global, reader: &mut Reader<'_>) -> Option<u64> {
        let number = take_number(reader)?;
        if number <= self.high {
            Some(number)
        } else {
            None
        }
    }
}

/// How many wagons an order lacks.
#[derive(Clone, Copy)]
pub(crate) struct LackToken;

impl TokenKind for LackToken {
    type Item = u32;

    ghost reads = { λ _ d lack. values.number_within 1 max_order_wagons d ≡ Ok lack };

    ghost nests = { λ _. 0 };

    fn take(&self, _alloc: Global, reader: &mut Reader<'_>) -> Option<u32> {
        let number = take_number(reader)?;
        if 1 <= number && number <= u64::from(MAX_ORDER_WAGONS) {
            Some(number as u32)
        } else {
            None
        }
    }
}

/// Costs of cells in km, null where the pair is not allowed.
#[derive(Clone, Copy)]
pub(crate) struct CellToken;

impl TokenKind for CellToken {
    type Item = Option<u64>;

    ghost reads = { λ _ d cell. meaning.cell_of d ≡ Ok cell };

    ghost nests = { λ _. 0 };

    fn take(&self, _alloc: Global, reader: &mut Reader<'_>) -> Option<Option<u64>> {
        match reader.next()? {
            Token::Null => Some(None),
            Token::Number(text) => {
                let cost = whole_number(text)?;
                if cost <= MAX_COST {
                    Some(Some(cost))
                } else {
                    None
                }
            }
            _ => None,
        }
    }
}

/// Pairs of a wagon and an order, each a list of two texts.
#[derive(Clone, Copy)]
pub(crate) struct PairToken;

impl TokenKind for PairToken {
    type Item = (WagonNumber, OrderId);

    ghost reads = { λ _ d pair. values.wagon_and_order d ≡ Ok pair };

    ghost nests = { λ _. 1 };

    fn take(&self, alloc: Global, reader: &mut Reader<'_>) -> Option<(WagonNumber, OrderId)> {
        take_begin_array(reader)?;
        let wagon = WAGON.take(alloc, reader)?;
        let order = ORDER.take(alloc, reader)?;
        if !reader.take_end_array() {
            return None;
        }
        Some((wagon, order))
    }
}

/// The costs of one wagon.
#[derive(Clone, Copy)]
pub(crate) struct RowToken;

impl TokenKind for RowToken {
    type Item = Vec<Option<u64>>;

    ghost reads = { λ _ d row. meaning.row_of d ≡ Ok row.items };

    ghost nests = { λ _. 1 };

    fn take(&self, alloc: Global, reader: &mut Reader<'_>) -> Option<Vec<Option<u64>>> {
        take_list(alloc, reader, &CellToken)
    }
}

/// The bracket that opens a list.
fn take_begin_array(reader: &mut Reader<'_>) -> Option<()>
    ensures { OnSome result (reader.old ≡ token.begin_array ∷ reader.new) }
{
    match reader.next()? {
        Token::BeginArray => Some(()),
        _ => None,
    }
}

/// A list of such values.
pub(crate) fn take_list<K: TokenKind>(
    alloc: Global,
    reader: &mut Reader<'_>,
    kind: &K,
) -> Option<Vec<K::Item>>
    ensures value { IfSome result (λ found. Spells (suc (K.nests kind.now)) (IsListOf (K.reads kind.now) found.items) reader.old reader.new) }
    ensures shorter { OnSome result (length reader.new < length reader.old) }
{
    take_begin_array(reader)?;
    take_items(alloc, reader, kind)
}

/// The values behind a list's opening bracket, and its closing one.
fn take_items<K: TokenKind>(
    alloc: Global,
    reader: &mut Reader<'_>,
    kind: &K,
) -> Option<Vec<K::Item>>
    ensures value { IfSome result (λ found. SpellsItems (K.nests kind.now) (K.reads kind.now) found.items reader.old reader.new) }
    ensures shorter { OnSome result (length reader.new < length reader.old) }
{
    let Ok(mut found) = Vec::with_capacity(alloc, FIRST_ROOM) else {
        return None;
    };
    'items: while !reader.take_end_array() {
        let item = kind.take(alloc, reader)?;
        match found.push(item) {
            Ok(()) => {}
            Err(_) => return None,
        }
    }
    Some(found)
}
