//! The kinds of items that a list may have.

ghost use Rattle.std.specs.Prelude.{◌≡◌, Result};
ghost use Rattle.serde_json.specs.Data.{Data};
ghost use Rattle.serde_json.specs.View.{view};
ghost use Rattle.line_fields.specs.declared.fault.FieldFault.{FieldFault};
ghost use Rattle.line_fields.specs.Values as values;

use crate::fault::FieldFault;
use crate::values::{code_from, count_within, list_of, number_within};
use rail_codes::{FromText, OrderId, WagonNumber};
use serde_json::Value;
use std::marker::PhantomData;

/// How an item of a list is read.
pub trait ItemKind {
    /// What an item is read as.
    type Item: Drop;

    /// What a value is read as, or its fault.
    ghost meaning: { Self → Data → Result Self.Item FieldFault };

    /// The item that a value is read as, or its fault.
    fn read(&self, value: &Value) -> Result<Self::Item, FieldFault>
        ensures { result ≡ meaning self.now (view value.now) };
}

/// Codes of one type.
pub(crate) struct CodeKind<C> {
    pub code: PhantomData<C>,
}

impl<C: FromText> ItemKind for CodeKind<C> {
    type Item = C;

    ghost meaning = { λ _. values.code_from C.meaning };

    fn read(&self, value: &Value) -> Result<C, FieldFault> {
        code_from(value)
    }
}

/// Whole numbers from `low` to `high`.
#[derive(Clone, Copy)]
pub(crate) struct NumberKind {
    pub low: u64,
    pub high: u64,
}

impl ItemKind for NumberKind {
    type Item = u64;

    ghost meaning = { λ k. values.number_within k.low k.high };

    fn read(&self, value: &Value) -> Result<u64, FieldFault> {
        number_within(value, self.low, self.high)
    }
}

/// Whole numbers of 32 bits from `low` to `high`.
#[derive(Clone, Copy)]
pub struct CountKind {
    /// The least of the numbers.
    pub low: u32,
    /// The greatest of the numbers.
    pub high: u32,
}

impl ItemKind for CountKind {
    type Item = u32;

    ghost meaning = { λ k. values.number_within k.low k.high };

    fn read(&self, value: &Value) -> Result<u32, FieldFault> {
        count_within(value, self.low, self.high)
    }
}

/// Pairs of a wagon number and the name of an order, each a list of two texts.
#[derive(Clone, Copy)]
pub(crate) struct PairKind;

impl ItemKind for PairKind {
    type Item = (WagonNumber, OrderId);

    ghost meaning = { λ _. values.wagon_and_order };

    #[tactic(auto, unfolding(crate::specs::Values::wagon_and_order))]
    fn read(&self, value: &Value) -> Result<(WagonNumber, OrderId), FieldFault> {
        let [wagon, order] = list_of(value)? else {
            return Err(FieldFault::OutOfRange);
        };
        let wagon = code_from(wagon)?;
        let order = code_from(order)?;
        Ok((wagon, order))
    }
}
