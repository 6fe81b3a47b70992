//! Tables of the lists that were read off the tokens of a line.

ghost use Rattle.std.specs.Prelude.{◌≡◌, IfSome, Ok};
ghost use Rattle.table_lines.specs.TableLine.{IsWithinLimits, table_line_of, table_text};
ghost use Rattle.table_lines.specs.TablePart.{table_of_line};

use crate::found_lists::{FoundLists, lists_of_line};
use crate::table_line::TableLine;
use std::alloc::Global;

/// The table of a line with its plan. `None` where it takes more than one pass to tell.
pub(crate) fn planned_off_tokens(alloc: Global, bytes: &[u8]) -> Option<TableLine>
    ensures meaning { IfSome result (λ line. table_line_of bytes.now ≡ Ok (table_text line)) }
    ensures limits { IfSome result IsWithinLimits }
{
    let FoundLists {
        wagons,
        orders,
        cells,
        penalties,
        lacks,
        pairs,
        u,
        v,
    } = lists_of_line(alloc, bytes)?;
    Some(TableLine {
        wagons: wagons?,
        orders: orders?,
        cells: cells?,
        penalties: penalties?,
        lacks,
        pairs: pairs?,
        u: u?,
        v: v?,
    })
}

/// The table of a line without a plan, whether one stands there or not. `None` where it takes more than one pass to
/// tell.
pub(crate) fn stated_off_tokens(alloc: Global, bytes: &[u8]) -> Option<TableLine>
    ensures meaning { IfSome result (λ line. table_of_line bytes.now ≡ Ok (table_text line)) }
    ensures limits { IfSome result IsWithinLimits }
{
    let FoundLists {
        wagons,
        orders,
        cells,
        penalties,
        lacks,
        ..
    } = lists_of_line(alloc, bytes)?;
    Some(TableLine {
        wagons: wagons?,
        orders: orders?,
        cells: cells?,
        penalties: penalties?,
        lacks,
        pairs: Vec::new(alloc),
        u: Vec::new(alloc),
        v: Vec::new(alloc),
    })
}
