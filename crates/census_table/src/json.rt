//! Rows as JSON objects, each on a line of its own. The only error is out of memory.
ghost use Rattle.std.specs.Prelude.{◌≡◌, ◌++◌, false, OnOk, string_bytes};
ghost use Rattle.census_table.specs.Contents.{content_of, member_of, row_of};
ghost use Rattle.census_table.specs.Json.{content_json, items_text, json_line, member_json, string_json, text_json};

use crate::cell::{Cell, Field, fault_text, hex_of, share_text};
use census_facts::json_of;
use itoa::{Buffer, Integer};
use serde_json::Value;
use std::alloc::{AllocError, Global};

// Adds a string, as `serde_json` writes it.
fn push_string(alloc: Global, text: &mut Vec<u8>, string: String) -> Result<(), AllocError>
    ensures { OnOk result (text.new.items ≡ text.old.items ++ string_json (string_bytes string)) }
{
    let json = json_of(alloc, &Value::String(string))?;
    text.extend_from_slice(json.as_slice())
}

/// Adds bytes as a string. Bytes that are not UTF-8 become U+FFFD.
pub fn push_text(alloc: Global, text: &mut Vec<u8>, bytes: &[u8]) -> Result<(), AllocError>
    ensures { OnOk result (text.new.items ≡ text.old.items ++ text_json bytes.now) }
{
    push_string(alloc, text, String::from_utf8_lossy(alloc, bytes)?)
}

/// Adds a number in decimal.
pub fn push_number<I: Integer>(text: &mut Vec<u8>, number: I) -> Result<(), AllocError>
    ensures { OnOk result (text.new.items ≡ text.old.items ++ I.text number) }
{
    let mut buffer = Buffer::new();
    text.extend_from_slice(buffer.format(number).as_bytes())
}

// Adds the content of a row in one column: `null` for nothing.
fn push_cell(alloc: Global, text: &mut Vec<u8>, cell: &Cell) -> Result<(), AllocError>
    ensures { OnOk result (text.new.items ≡ text.old.items ++ content_json (content_of cell.now)) }
{
    match cell {
        Cell::Empty => text.extend_from_slice(b"null"),
        Cell::Count(number) => push_number(text, *number),
        Cell::Shift(number) => push_number(text, *number),
        Cell::Share(millionths) => {
            let share = share_text(alloc, *millionths)?;
            text.extend_from_slice(share.as_bytes())
        }
        Cell::Text(bytes) => push_text(alloc, text, bytes),
        Cell::Hex(bytes) => match hex_of(alloc, bytes)? {
            Some(hex) => push_string(alloc, text, hex),
            None => text.extend_from_slice(b"null"),
        },
        Cell::Fault(number) => push_string(alloc, text, fault_text(alloc, *number)?),
    }
}

// Adds a member: its name and its content.
fn push_member(alloc: Global, text: &mut Vec<u8>, field: &Field) -> Result<(), AllocError>
    ensures { OnOk result (text.new.items ≡ text.old.items ++ member_json (member_of field.now)) }
{
    text.push(b'"')?;
    text.extend_from_slice(field.name.as_bytes())?;
    text.extend_from_slice(b"\":")?;
    push_cell(alloc, text, &field.cell)
}

/// Adds members, with a comma before each that is `later` than another.
pub fn push_members(
    alloc: Global,
    text: &mut Vec<u8>,
    later: bool,
    row: &[Field],
) -> Result<(), AllocError>
    ensures { OnOk result (text.new.items
        ≡ text.old.items ++ items_text member_json later (row_of row.now)) }
{
    let mut behind = later;
    for field in row {
        if behind {
            text.push(b',')?;
        }
        push_member(alloc, text, field)?;
        behind = true;
    }
    Ok(())
}

/// Adds a row as one object on a line of its own, which ends with LF: a member for each field, in their order.
pub fn push_object(alloc: Global, text: &mut Vec<u8>, row: &[Field]) -> Result<(), AllocError>
    ensures { OnOk result (text.new.items ≡ text.old.items ++ json_line (row_of row.now)) }
{
    text.push(b'{')?;
    push_members(alloc, text, false, row)?;
    text.extend_from_slice(b"}\n")
}
