//! Laws of rows as lines of JSON. Their functions do nothing: the contract is the law.
ghost use Rattle.text_tables.specs.Laws.{LinesAreUtf8, NumbersAreNumbers, RowsAreKept, RowsAreLines};

/// Rows as lines of JSON are one line for each row below the titles, and each line is an object of the titles with the row's
/// cells, which has all its cells where it is as long as the titles.
pub fn rows_are_lines_of_json()
    ensures lines { RowsAreLines }
    ensures kept { RowsAreKept }
    ensures utf8 { LinesAreUtf8 }
    ensures numbers { NumbersAreNumbers }
{}
