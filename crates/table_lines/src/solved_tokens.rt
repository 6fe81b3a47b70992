//! The line of a table with its plan, written token by token. `Err` only when out of memory.
ghost use Rattle.std.specs.Prelude.{◌≡◌, ◌++◌, ◌∷◌, [], All, IfOk, Ok, OnOk, codes, option_map, string_bytes};
ghost use Rattle.json.specs.Token.{end_object};
ghost use Rattle.serde_json.specs.Data.{string};
ghost use Rattle.line_fields.specs.Values.{order_id_from, wagon_number_from};
ghost use Rattle.line_fields.specs.Written.{list_data};
ghost use Rattle.line_fields.specs.WrittenTokens.{data_tokens, member_tokens};
ghost use Rattle.table_lines.specs.TableLine.{IsWithinLimits, table_line_of, table_text};
ghost use Rattle.table_lines.specs.SolvedText.{planned_table, solved_data, solved_text};
ghost use Rattle.table_lines.specs.inner.Members.{AreWritable, lacks_tokens, opening_tokens};

use crate::table_line::TableLine;
use crate::written_lists::{write_list, write_number};
use json::Writer;
use line_fields::written_text;
use price_checker::Prices;
use rail_codes::{OrderId, WagonNumber};
use std::alloc::{AllocError, Global};

/// The line of a table with this plan, these prices and the plan's cost in kilometres, without its line feed: members
/// ascending by name, and no space. It reads as that table. `Err` only when out of memory.
pub(crate) fn solved_line(
    alloc: Global,
    table: &TableLine,
    pairs: &[(WagonNumber, OrderId)],
    prices: &Prices,
    cost: u64,
) -> Result<String, AllocError>
    requires limits { IsWithinLimits table.now }
    ensures text { IfOk result (λ line. string_bytes line ≡ solved_text (planned_table table.now pairs.now prices.now) cost) }
    ensures reads { IfOk result (λ line. table_line_of (string_bytes line) ≡ Ok (planned_table table.now pairs.now prices.now)) }
{
    let mut out = Writer::new(Vec::new(alloc));
    write_solved(&mut out, table, pairs, prices, cost)?;
    Ok(written_text(out))
}

/// Writes that table.
fn write_solved(
    out: &mut Writer,
    table: &TableLine,
    pairs: &[(WagonNumber, OrderId)],
    prices: &Prices,
    cost: u64,
) -> Result<(), AllocError>
    ensures tokens { OnOk result (out.new.tokens ≡ out.old.tokens ++ data_tokens (solved_data (planned_table table.now pairs.now prices.now) cost)) }
    ensures before { out.new.before ≡ out.old.before }
    ensures writable { OnOk result (AreWritable table.now pairs.now prices.now) }
{
    begin_with_cells(out, table)?;
    write_number(out, "cost", cost)?;
    write_lacks(out, &table.lacks)?;
    write_list(out, "orders", &table.orders)?;
    write_list(out, "pairs", pairs)?;
    write_list(out, "penalties", &table.penalties)?;
    write_list(out, "u", &prices.u)?;
    write_list(out, "v", &prices.v)?;
    end_with_wagons(out, &table.wagons)
}

/// Begins an object with a table's rows of costs, one for each wagon.
pub(crate) fn begin_with_cells(out: &mut Writer, table: &TableLine) -> Result<(), AllocError>
    ensures tokens { OnOk result (out.new.tokens ≡ out.old.tokens ++ opening_tokens (table_text table.now).cells) }
    ensures before { out.new.before ≡ out.old.before }
{
    out.begin_object()?;
    write_list(out, "cells", &table.cells)
}

/// Writes what the orders lack, where the table says it.
pub(crate) fn write_lacks(out: &mut Writer, lacks: &Option<Vec<u32>>) -> Result<(), AllocError>
    ensures tokens { OnOk result (out.new.tokens ≡ out.old.tokens ++ lacks_tokens (option_map (λ list. list.items) lacks.now)) }
    ensures before { out.new.before ≡ out.old.before }
{
    match lacks {
        None => Ok(()),
        Some(lacks) => write_list(out, "lacks", lacks),
    }
}

/// Writes the wagons, and ends the object.
pub(crate) fn end_with_wagons(out: &mut Writer, wagons: &[WagonNumber]) -> Result<(), AllocError>
    ensures tokens { OnOk result (out.new.tokens ≡ out.old.tokens ++ (member_tokens (codes "wagons") (list_data string wagons.now) ++ end_object ∷ [])) }
    ensures before { out.new.before ≡ out.old.before }
    ensures reads { OnOk result (All (λ number. wagon_number_from (string number) ≡ Ok number) wagons.now) }
{
    write_list(out, "wagons", wagons)?;
    out.end_object()
}
