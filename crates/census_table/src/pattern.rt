//! Patterns in JSON, with the engines or parts that the rows after their lines report.
ghost use Rattle.std.specs.Prelude.{◌≡◌, IfOk};
ghost use Rattle.std.specs.Option.{option_copied};
ghost use Rattle.watched.specs.Telling.{sheet};
ghost use Rattle.census_table.specs.Json.{end_of, head_of, json_line, middle_of};
ghost use Rattle.census_table.specs.Tables.{thing_row};
ghost use Rattle.census_table.specs.Written.{Puts};
ghost use Rattle.census_table.specs.declared.table.Format.TheVariants.{Json};
ghost use Rattle.census_table.specs.declared.thing.Thing.TheVariants.{Pattern};

use crate::column::{Column, entry_row};
use crate::entry::Entry;
use crate::json::push_members;
use crate::lists::{put_engine_list, put_part_list};
use census_facts::Names;
use census_rows::Section;
use std::alloc::{AllocError, Global};
use std::io::Write;
use watched::{Block, Output, put};

// The text before the engines.
fn head_of(alloc: Global, names: Option<&Names>, entry: &Entry) -> Result<Vec<u8>, AllocError>
    ensures { IfOk result (λ text. text.items ≡ head_of (option_copied names.entry) entry.now) }
{
    let row = entry_row(alloc, names, &Column::FIRST, entry)?;
    let mut text = Vec::new(alloc);
    text.push(b'{')?;
    push_members(alloc, &mut text, false, row.as_slice())?;
    text.extend_from_slice(b",\"engines\":")?;
    Ok(text)
}

// The text between the engines and the parts.
fn middle_of(alloc: Global, names: Option<&Names>, entry: &Entry) -> Result<Vec<u8>, AllocError>
    ensures { IfOk result (λ text. text.items ≡ middle_of (option_copied names.entry) entry.now) }
{
    let row = entry_row(alloc, names, &Column::MIDDLE, entry)?;
    let mut text = Vec::new(alloc);
    push_members(alloc, &mut text, true, row.as_slice())?;
    text.extend_from_slice(b",\"parts\":")?;
    Ok(text)
}

// The text after the parts.
fn end_of(alloc: Global, names: Option<&Names>, entry: &Entry) -> Result<Vec<u8>, AllocError>
    ensures { IfOk result (λ text. text.items ≡ end_of (option_copied names.entry) entry.now) }
{
    let row = entry_row(alloc, names, &Column::LAST, entry)?;
    let mut text = Vec::new(alloc);
    push_members(alloc, &mut text, true, row.as_slice())?;
    text.extend_from_slice(b"}\n")?;
    Ok(text)
}

/// Writes the JSON line of a pattern whose `line` row comes before these rows. The only error is out of memory; then a prefix of
/// it has been written.
pub fn put_pattern<W: Write>(
    alloc: Global,
    names: Option<&Names>,
    entry: &Entry,
    rows: &Section,
    block: &mut Block,
    writer: &mut Output<W>,
) -> Result<(), AllocError>
    ensures { Puts (json_line (thing_row (option_copied names.entry) Json (Pattern entry.now rows.now))) result
        (sheet block.old writer.old) (sheet block.new writer.new) }
{
    let head = head_of(alloc, names, entry)?;
    let middle = middle_of(alloc, names, entry)?;
    let end = end_of(alloc, names, entry)?;
    let kind = entry.outcome.behind();
    put(head.as_slice(), block, writer);
    put_engine_list(alloc, kind, rows, block, writer)?;
    put(middle.as_slice(), block, writer);
    put_part_list(alloc, kind, rows, block, writer)?;
    put(end.as_slice(), block, writer);
    Ok(())
}
