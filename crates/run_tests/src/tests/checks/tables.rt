//! Tables by the calls themselves, at positions that no line can name.

use cost_table::{Cells, Names};
use std::alloc::Global;
use std::test::Fail;
use table_lines::{TableLine, read_table_line};

/// Two wagons and two orders; the second wagon may not serve the second order.
const TWO: &str =
    r#"{"wagons":["338447961008","218124712173"],"orders":["O1","O2"],"cells":[[10,20],[15,null]],"penalties":[1000,1000],"lacks":[1,1],"#;

/// The table of a line that gives its lacks, and what the line says.
fn read_cells(alloc: Global, line: &str) -> Result<(Cells, TableLine), Fail> {
    let table = read_table_line(alloc, line.as_bytes())?;
    let lacks = table.lacks.as_ref().ok_or("the line gives its lacks")?;
    let cells = Cells::from_rows(alloc, &table.cells, &table.penalties, lacks)?;
    Ok((cells, table))
}

/// The table of two wagons and two orders, and what its line says.
fn table_of_two(alloc: Global) -> Result<(Cells, TableLine), Fail> {
    let line = format!(in alloc; r#"{TWO}"pairs":[],"u":[],"v":[]}}"#)?;
    read_cells(alloc, line.as_str())
}

/// The cells of that table.
fn cells_of_two(alloc: Global) -> Result<Cells, Fail> {
    let (cells, _table) = table_of_two(alloc)?;
    Ok(cells)
}

/// Its names.
fn names_of_two(alloc: Global) -> Result<Names, Fail> {
    let (_cells, table) = table_of_two(alloc)?;
    Ok(Names::new(table.wagons, table.orders)?)
}

/// There is no cell past the last wagon or the last order.
#[test]
fn cells_of_a_table(rt: HostRuntime) -> Result<(), Fail> {
    let cells = cells_of_two(rt.alloc())?;
    for (i, j) in [(2, 0), (0, 2)] {
        assert_eq!(rt; cells.cell(i, j), None, "{i} {j}");
    }
    Ok(())
}

/// There is no name past the last wagon.
#[test]
fn names_of_a_table(rt: HostRuntime) -> Result<(), Fail> {
    let names = names_of_two(rt.alloc())?;
    assert_eq!(rt; names.wagon_at(2), None);
    Ok(())
}
