//! The columns of a table.
ghost use Rattle.std.specs.Prelude.{◌≡◌, IfOk};
ghost use Rattle.std.specs.Option.{option_copied};
ghost use Rattle.census_rows.specs.Kinds.{said, value_at};
ghost use Rattle.census_rows.specs.declared.kinds.Label.TheVariants as label;
ghost use Rattle.census_table.specs.Columns.{called_content, content_in_column, entry_row, fault_content, field_content, is_shown, name_of, value_content, way_content};
ghost use Rattle.census_table.specs.Contents.{content_of, count, row_of, shift};

use crate::called::called;
use crate::cell::{Cell, Field};
use crate::entry::Entry;
use census_facts::Names;
use census_rows::{Label, Outcome, Value};
use std::alloc::{AllocError, Global};

/// A column of a table of patterns. A row has nothing in a column that does not apply to its pattern.
#[derive(Clone, Copy)]
pub enum Column {
    /// The collection's number in its report.
    Collection,
    /// The collection's name.
    CollectionName,
    /// The pattern's number in its collection.
    Pattern,
    /// The pattern's name.
    Name,
    /// `ok`, `ash`, `grows`, `none`, `large` or `bad`.
    Status,
    /// Its rule, unless it is `bad`.
    Rule,
    /// The number of its live cells, unless it is `bad`.
    Population,
    /// The first generation of its cycle, where it is `ok`.
    Onset,
    /// The length of its cycle, where it is `ok`, or of that of its engine, where it has one.
    Period,
    /// The distance that it or its engine moves to the right in a period, where it is `ok` or has one engine.
    Dx,
    /// The distance that it or its engine moves down in a period, where it is `ok` or has one engine.
    Dy,
    /// Its code, where it is `ok`.
    Code,
    /// The name of its code, if the given names have one.
    CommonName,
    /// The number of its fault, where it is `bad`.
    Fault,
    /// The bytes of the collection's name in hex, where it is not UTF-8.
    CollectionNameHex,
    /// The bytes of the pattern's name in hex, where it is not UTF-8.
    NameHex,
    /// The number of objects that it has fallen apart into, where it is `ash`.
    Objects,
    /// The first generation with too many cells, where it is `large`.
    Generation,
    /// The number of its engines, where it is `grows`.
    Engines,
    /// The meaning of its fault, where it is `bad`.
    FaultText,
}

// The cell of a field's value.
fn cell_of(value: Value) -> Cell
    ensures { content_of result ≡ value_content value.entry }
{
    match value {
        Value::Number(number) => Cell::Count(number),
        Value::Signed(number) => Cell::Shift(number),
        Value::Text(bytes) => Cell::Text(bytes),
    }
}

// The cell of the field with this label.
pub fn field_cell<'a>(outcome: &Outcome<'a>, label: Label) -> Cell<'a>
    ensures { content_of result ≡ field_content outcome.now label }
{
    match outcome.value(label) {
        Some(value) => cell_of(value),
        None => Cell::Empty,
    }
}

// The cell of the period.
fn period_cell<'a>(entry: &Entry<'a>) -> Cell<'a>
    ensures { content_of result ≡ way_content (λ way. count way.period) label.Period entry.now }
{
    match entry.way {
        Some(way) => Cell::Count(way.period),
        None => field_cell(&entry.outcome, Label::Period),
    }
}

// The cell of the distance moved to the right.
fn dx_cell<'a>(entry: &Entry<'a>) -> Cell<'a>
    ensures { content_of result ≡ way_content (λ way. shift way.dx) label.Dx entry.now }
{
    match entry.way {
        Some(way) => Cell::Shift(way.dx),
        None => field_cell(&entry.outcome, Label::Dx),
    }
}

// The cell of the distance moved down.
fn dy_cell<'a>(entry: &Entry<'a>) -> Cell<'a>
    ensures { content_of result ≡ way_content (λ way. shift way.dy) label.Dy entry.now }
{
    match entry.way {
        Some(way) => Cell::Shift(way.dy),
        None => field_cell(&entry.outcome, Label::Dy),
    }
}

// The cell of the meaning of a fault.
fn fault_cell<'a>(outcome: &Outcome<'a>) -> Cell<'a>
    ensures { content_of result ≡ fault_content (value_at label.Fault (said outcome.now).fields) }
{
    match outcome.value(Label::Fault) {
        Some(Value::Number(number)) => Cell::Fault(number),
        _ => Cell::Empty,
    }
}

// The cell of the name of a code.
fn called_cell<'a>(names: Option<&'a Names>, outcome: &Outcome<'a>) -> Cell<'a>
    ensures { content_of result
        ≡ called_content (option_copied names.entry) (value_at label.Code (said outcome.now).fields) }
{
    match outcome.value(Label::Code) {
        Some(Value::Text(code)) => called(names, code),
        _ => Cell::Empty,
    }
}

impl Column {
    /// All columns, in their order.
    pub const ALL: [Column; 20] = [
        Column::Collection,
        Column::CollectionName,
        Column::Pattern,
        Column::Name,
        Column::Status,
        Column::Rule,
        Column::Population,
        Column::Onset,
        Column::Period,
        Column::Dx,
        Column::Dy,
        Column::Code,
        Column::CommonName,
        Column::Fault,
        Column::CollectionNameHex,
        Column::NameHex,
        Column::Objects,
        Column::Generation,
        Column::Engines,
        Column::FaultText,
    ];

    /// The columns whose names come before `engines`, which is a list in JSON, in the order of their names.
    pub const FIRST: [Column; 7] = [
        Column::Code,
        Column::Collection,
        Column::CollectionName,
        Column::CollectionNameHex,
        Column::CommonName,
        Column::Dx,
        Column::Dy,
    ];

    /// The columns between `engines` and `parts`, which is a list in JSON too, in the order of their names.
    pub const MIDDLE: [Column; 7] = [
        Column::Fault,
        Column::FaultText,
        Column::Generation,
        Column::Name,
        Column::NameHex,
        Column::Objects,
        Column::Onset,
    ];

    /// The columns after `parts`, in the order of their names.
    pub const LAST: [Column; 5] = [
        Column::Pattern,
        Column::Period,
        Column::Population,
        Column::Rule,
        Column::Status,
    ];

    /// The column's name: lowercase letters and `_`.
    pub fn name(self) -> &'static str
        ensures { result.now ≡ name_of self }
    {
        match self {
            Column::Collection => "collection",
            Column::CollectionName => "collection_name",
            Column::Pattern => "pattern",
            Column::Name => "name",
            Column::Status => "status",
            Column::Rule => "rule",
            Column::Population => "population",
            Column::Onset => "onset",
            Column::Period => "period",
            Column::Dx => "dx",
            Column::Dy => "dy",
            Column::Code => "code",
            Column::CommonName => "common_name",
            Column::Fault => "fault",
            Column::CollectionNameHex => "collection_name_hex",
            Column::NameHex => "name_hex",
            Column::Objects => "objects",
            Column::Generation => "generation",
            Column::Engines => "engines",
            Column::FaultText => "fault_text",
        }
    }

    /// True where a table has the column: a table without names has no column for them.
    pub fn is_shown(self, names: Option<&Names>) -> bool
        ensures { result ≡ is_shown (option_copied names.entry) self }
    {
        match self {
            Column::CommonName => names.is_some(),
            _ => true,
        }
    }

    /// The cell of a pattern's row in the column.
    pub fn cell<'a>(self, names: Option<&'a Names>, entry: &Entry<'a>) -> Cell<'a>
        ensures { content_of result ≡ content_in_column (option_copied names.entry) self entry.now }
    {
        match self {
            Column::Collection => Cell::Count(entry.collection),
            Column::CollectionName => Cell::Text(entry.collection_name),
            Column::Pattern => Cell::Count(entry.pattern),
            Column::Name => Cell::Text(entry.name),
            Column::Status => Cell::Text(entry.outcome.word()),
            Column::Rule => field_cell(&entry.outcome, Label::Rule),
            Column::Population => field_cell(&entry.outcome, Label::Population),
            Column::Onset => field_cell(&entry.outcome, Label::Onset),
            Column::Period => period_cell(entry),
            Column::Dx => dx_cell(entry),
            Column::Dy => dy_cell(entry),
            Column::Code => field_cell(&entry.outcome, Label::Code),
            Column::CommonName => called_cell(names, &entry.outcome),
            Column::Fault => field_cell(&entry.outcome, Label::Fault),
            Column::CollectionNameHex => Cell::Hex(entry.collection_name),
            Column::NameHex => Cell::Hex(entry.name),
            Column::Objects => field_cell(&entry.outcome, Label::Objects),
            Column::Generation => field_cell(&entry.outcome, Label::Generation),
            Column::Engines => field_cell(&entry.outcome, Label::Engines),
            Column::FaultText => fault_cell(&entry.outcome),
        }
    }
}

/// The row of a pattern, in each of these columns that a table has. The only error is out of memory.
pub fn entry_row<'a>(
    alloc: Global,
    names: Option<&'a Names>,
    columns: &[Column],
    entry: &Entry<'a>,
) -> Result<Vec<Field<'a>>, AllocError>
    ensures { IfOk result
        (λ row. row_of row.items ≡ entry_row (option_copied names.entry) columns.now entry.now) }
{
    let mut row = Vec::with_capacity(alloc, columns.len())?;
    for column in columns {
        if column.is_shown(names) {
            row.push(Field {
                name: column.name(),
                cell: column.cell(names, entry),
            })?;
        }
    }
    Ok(row)
}
