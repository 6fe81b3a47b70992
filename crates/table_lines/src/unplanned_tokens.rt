//! The line of a table without a plan, written token by token. `Err` only when out of memory.
ghost use Rattle.std.specs.Prelude.{◌≡◌, ◌++◌, [], IfOk, Ok, OnOk, string_bytes};
ghost use Rattle.line_fields.specs.WrittenTokens.{data_tokens};
ghost use Rattle.table_lines.specs.TableLine.{IsWithinLimits, table_text, with_plan};
ghost use Rattle.table_lines.specs.TablePart.{table_of_line};
ghost use Rattle.table_lines.specs.UnplannedText.{unplanned_data, unplanned_text};
ghost use Rattle.table_lines.specs.inner.Members.{HasWritableNames};

use crate::solved_tokens::{begin_with_cells, end_with_wagons, write_lacks};
use crate::table_line::TableLine;
use crate::written_lists::write_list;
use json::Writer;
use line_fields::written_text;
use std::alloc::{AllocError, Global};

/// The line of a table without its plan and without a line feed: members ascending by name, and no space. It reads as
/// that table. `Err` only when out of memory.
pub(crate) fn unplanned_line(alloc: Global, table: &TableLine) -> Result<String, AllocError>
    requires limits { IsWithinLimits table.now }
    ensures text { IfOk result (λ line. string_bytes line ≡ unplanned_text (table_text table.now)) }
    ensures reads { IfOk result (λ line. table_of_line (string_bytes line) ≡ Ok (with_plan (table_text table.now) [] [] [])) }
{
    let mut out = Writer::new(Vec::new(alloc));
    write_unplanned(&mut out, table)?;
    Ok(written_text(out))
}

/// Writes that table.
fn write_unplanned(out: &mut Writer, table: &TableLine) -> Result<(), AllocError>
    ensures tokens { OnOk result (out.new.tokens ≡ out.old.tokens ++ data_tokens (unplanned_data (table_text table.now))) }
    ensures before { out.new.before ≡ out.old.before }
    ensures writable { OnOk result (HasWritableNames table.now) }
{
    begin_with_cells(out, table)?;
    write_lacks(out, &table.lacks)?;
    write_list(out, "orders", &table.orders)?;
    write_list(out, "penalties", &table.penalties)?;
    end_with_wagons(out, &table.wagons)
}
