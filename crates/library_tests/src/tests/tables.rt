//! Tables, written as in a table line.

use cost_table::Cells;
use std::alloc::Global;
use std::test::Fail;
use table_lines::read_table_line;

/// The table of these rows of costs, penalties and lacks.
pub fn table(alloc: Global, rows: &str, penalties: &str, lacks: &str) -> Result<Cells, Fail> {
    let text = format!(in alloc;
        r#"{{"wagons":[],"orders":[],"cells":[{rows}],"penalties":[{penalties}],"lacks":[{lacks}],"pairs":[],"u":[],"v":[]}}"#
    )?;
    let line = read_table_line(alloc, text.as_bytes())?;
    match &line.lacks {
        Some(lacks) => Ok(Cells::from_rows(alloc, &line.cells, &line.penalties, lacks)?),
        None => Err("no lacks")?,
    }
}
