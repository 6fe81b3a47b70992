//! The sheet of an office.
ghost use Rattle.std.specs.Prelude.{◌≡◌, ◌++◌, IfOk, OnOk, string_bytes};
ghost use Rattle.dispatch_sheet.specs.Sheet.{network_line, version_line, IsSheetText};

use crate::row_lines::push_lines;
use operating_db::OfficeState;
use reply_texts::line_words::push_number;
use std::alloc::{AllocError, Global};

/// The sheet of an office: `sheet VERSION`, a line for each wagon, ascending by number, a line for each order, as
/// placed, and where there is more than one network `network K`, the one in force.
pub fn sheet_text(alloc: Global, version: u64, state: &OfficeState) -> Result<String, AllocError>
    ensures { IfOk result (λ text. IsSheetText version state.now (string_bytes text)) }
{
    let mut text = String::new(alloc);
    push_version(&mut text, version)?;
    push_lines(&mut text, state.wagon_rows())?;
    push_lines(&mut text, state.order_rows())?;
    push_network(&mut text, state)?;
    Ok(text)
}

/// Adds the line of the version.
fn push_version(text: &mut String, version: u64) -> Result<(), AllocError>
    ensures { OnOk result (string_bytes text.new ≡ string_bytes text.old ++ version_line version) }
{
    text.push_str("sheet")?;
    push_number(text, version)?;
    text.push_str("\n")
}

/// Adds the line of the network in force, where there is more than one.
fn push_network(text: &mut String, state: &OfficeState) -> Result<(), AllocError>
    ensures { OnOk result (string_bytes text.new ≡ string_bytes text.old ++ network_line state.now) }
{
    if state.networks() <= 1 {
        return Ok(());
    }
    text.push_str("network")?;
    push_number(text, u64::from(state.network()))?;
    text.push_str("\n")
}
