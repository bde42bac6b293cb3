//! Tables as comma-separated values. The only error is out of memory.
ghost use Rattle.std.specs.Prelude.{◌≡◌, ◌++◌, map, IfOk, OnOk};
ghost use Rattle.csv.specs.Records.{fields_of};
ghost use Rattle.csv.specs.Writing.{default_writer, row_text};
ghost use Rattle.census_table.specs.Contents.{content_bytes, row_of};
ghost use Rattle.census_table.specs.Written.{IsBetweenRecords, records_text, text_written};

use crate::cell::Field;
use csv::{ByteRecord, Writer};
use std::alloc::{AllocError, Global};

/// The record of the columns' names.
pub fn titles_record(alloc: Global, titles: &[&str]) -> Result<ByteRecord, AllocError>
    ensures { IfOk result (λ fields. fields_of fields ≡ map (λ s. s.now) titles.now) }
{
    let mut fields = ByteRecord::new(alloc);
    for title in titles {
        fields.push_field(title.as_bytes())?;
    }
    Ok(fields)
}

/// The record of a row. `safe` says whether texts are made safe.
pub fn row_record(alloc: Global, safe: bool, row: &[Field]) -> Result<ByteRecord, AllocError>
    ensures { IfOk result (λ fields. fields_of fields
        ≡ map (λ member. content_bytes safe member.content) (row_of row.now)) }
{
    let mut fields = ByteRecord::new(alloc);
    for field in row {
        let text = field.cell.to_text(alloc, safe)?;
        fields.push_field(text.as_bytes())?;
    }
    Ok(fields)
}

// Writes a record.
fn write(writer: &mut Writer<Vec<u8>>, fields: &ByteRecord) -> Result<(), AllocError>
    requires { IsBetweenRecords writer.old }
    ensures between { OnOk result (IsBetweenRecords writer.new) }
    ensures text { OnOk result (text_written writer.new
        ≡ text_written writer.old ++ row_text default_writer (fields_of fields.now)) }
{
    match writer.write_byte_record(fields) {
        Ok(()) => Ok(()),
        Err(_) => Err(AllocError),
    }
}

// Writes these records.
fn write_all(writer: &mut Writer<Vec<u8>>, records: &[ByteRecord]) -> Result<(), AllocError>
    requires { IsBetweenRecords writer.old }
    ensures { OnOk result
        (text_written writer.new ≡ text_written writer.old ++ records_text records.now) }
{
    for fields in records {
        write(writer, fields)?;
    }
    Ok(())
}

// The text that was written.
fn finish(writer: Writer<Vec<u8>>) -> Result<Vec<u8>, AllocError>
    ensures { IfOk result (λ text. text.items ≡ text_written writer) }
{
    match writer.into_inner() {
        Ok(text) => Ok(text),
        Err(_) => Err(AllocError),
    }
}

/// The text of these records, as the crate `csv` writes it by default.
///
/// It is not inlined, since a writer takes some 3 KB of the stack each time that it is moved.
#[inline(never)]
pub fn text_of(alloc: Global, records: &[ByteRecord]) -> Result<Vec<u8>, AllocError>
    ensures { IfOk result (λ text. text.items ≡ records_text records.now) }
{
    let mut writer = Writer::from_writer(Vec::new(alloc));
    write_all(&mut writer, records)?;
    finish(writer)
}
