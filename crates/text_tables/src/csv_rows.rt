//! Rows as CSV.
ghost use Rattle.std.specs.Prelude.{◌≡◌, IfOk};
ghost use Rattle.csv.specs.Records.{fields_of};
ghost use Rattle.text_tables.specs.CsvRows.{csv_text};

use crate::row::Row;
use csv::{ByteRecord, Error, WriterBuilder};
use std::alloc::{AllocError, Global};

/// Rows as the records of a file of CSV, by the `csv` crate's writer: fields are parted by commas and quoted as in RFC 4180 if
/// they need it, and lines end with a line feed. Refused where a row has more or fewer fields than the first, and when out of
/// memory.
pub fn csv_rows_text(alloc: Global, rows: &[Row]) -> Result<Vec<u8>, Error>
    ensures { IfOk result (λ text. text.items ≡ csv_text rows.now) }
{
    let mut writer = WriterBuilder::new().from_writer(Vec::new(alloc));
    for row in rows {
        match record_of(alloc, row) {
            Ok(record) => writer.write_byte_record(&record)?,
            Err(_) => return Err(Error::out_of_memory()),
        }
    }
    match writer.into_inner() {
        Ok(text) => Ok(text),
        Err(error) => Err(error.into_error()),
    }
}

/// A row as a record.
fn record_of(alloc: Global, row: &Row) -> Result<ByteRecord, AllocError>
    ensures { IfOk result (λ made. fields_of made ≡ row.now) }
{
    let mut fields = ByteRecord::new(alloc);
    for k in 0..row.len() {
        fields.push_field(row.cell(k).as_bytes())?;
    }
    Ok(fields)
}
