//! The columns of tables of engines.
ghost use Rattle.std.specs.Prelude.{◌≡◌, IfOk};
ghost use Rattle.std.specs.Option.{option_copied};
ghost use Rattle.census_table.specs.Contents.{content_of, row_of};
ghost use Rattle.census_table.specs.EngineColumns.{content_of_emitted, emitted_row, heading_of, is_headed, word_of};

use crate::called::called;
use crate::cell::{Cell, Field};
use crate::column::field_cell;
use crate::engine::{Emitted, EngineKind};
use census_facts::Names;
use census_rows::Label;
use std::alloc::{AllocError, Global};

/// A column of a table of engines.
#[derive(Clone, Copy)]
pub enum EngineColumn {
    /// The number of the pattern's collection in its report.
    Collection,
    /// The name of the pattern's collection.
    CollectionName,
    /// The bytes of the collection's name in hex, where it is not UTF-8.
    CollectionNameHex,
    /// The pattern's number in its collection.
    Pattern,
    /// The pattern's name.
    Name,
    /// The bytes of the pattern's name in hex, where it is not UTF-8.
    NameHex,
    /// The pattern's rule.
    Rule,
    /// The number of the engine's line in its pattern.
    Engine,
    /// `gun`, `rake` or `puffer`.
    Kind,
    /// Its period.
    Period,
    /// The distance that it moves to the right in a period.
    Dx,
    /// The distance that it moves down in a period.
    Dy,
    /// The number of such engines.
    Count,
    /// The code of objects that each emits.
    Emits,
    /// The name of this code, if the given names have one.
    CommonName,
    /// The number of such objects that each emits in a period.
    EmitsCount,
}

// The name of a kind of engine.
fn word_of(kind: EngineKind) -> &'static [u8]
    ensures { result.now ≡ word_of kind }
{
    match kind {
        EngineKind::Gun => b"gun",
        EngineKind::Rake => b"rake",
        EngineKind::Puffer => b"puffer",
    }
}

impl EngineColumn {
    /// The columns of comma-separated values, in their order.
    pub const ALL: [EngineColumn; 14] = [
        EngineColumn::Collection,
        EngineColumn::CollectionName,
        EngineColumn::Pattern,
        EngineColumn::Name,
        EngineColumn::Rule,
        EngineColumn::Engine,
        EngineColumn::Kind,
        EngineColumn::Period,
        EngineColumn::Dx,
        EngineColumn::Dy,
        EngineColumn::Count,
        EngineColumn::Emits,
        EngineColumn::CommonName,
        EngineColumn::EmitsCount,
    ];

    /// The columns in JSON, in the order of their names.
    pub const IN_JSON: [EngineColumn; 16] = [
        EngineColumn::Collection,
        EngineColumn::CollectionName,
        EngineColumn::CollectionNameHex,
        EngineColumn::CommonName,
        EngineColumn::Count,
        EngineColumn::Dx,
        EngineColumn::Dy,
        EngineColumn::Emits,
        EngineColumn::EmitsCount,
        EngineColumn::Engine,
        EngineColumn::Kind,
        EngineColumn::Name,
        EngineColumn::NameHex,
        EngineColumn::Pattern,
        EngineColumn::Period,
        EngineColumn::Rule,
    ];

    /// The column's name: lowercase letters and `_`.
    pub fn name(self) -> &'static str
        ensures { result.now ≡ heading_of self }
    {
        match self {
            EngineColumn::Collection => "collection",
            EngineColumn::CollectionName => "collection_name",
            EngineColumn::CollectionNameHex => "collection_name_hex",
            EngineColumn::Pattern => "pattern",
            EngineColumn::Name => "name",
            EngineColumn::NameHex => "name_hex",
            EngineColumn::Rule => "rule",
            EngineColumn::Engine => "engine",
            EngineColumn::Kind => "kind",
            EngineColumn::Period => "period",
            EngineColumn::Dx => "dx",
            EngineColumn::Dy => "dy",
            EngineColumn::Count => "count",
            EngineColumn::Emits => "emits",
            EngineColumn::CommonName => "common_name",
            EngineColumn::EmitsCount => "emits_count",
        }
    }

    /// True where a table has the column: a table without names has no column for them.
    pub fn is_there(self, names: Option<&Names>) -> bool
        ensures { result ≡ is_headed (option_copied names.entry) self }
    {
        match self {
            EngineColumn::CommonName => names.is_some(),
            _ => true,
        }
    }

    /// The cell of a row in the column.
    pub fn cell<'a>(self, names: Option<&'a Names>, emitted: &Emitted<'a>) -> Cell<'a>
        ensures { content_of result ≡ content_of_emitted (option_copied names.entry) self emitted.now }
    {
        match self {
            EngineColumn::Collection => Cell::Count(emitted.pattern.collection),
            EngineColumn::CollectionName => Cell::Text(emitted.pattern.collection_name),
            EngineColumn::CollectionNameHex => Cell::Hex(emitted.pattern.collection_name),
            EngineColumn::Pattern => Cell::Count(emitted.pattern.pattern),
            EngineColumn::Name => Cell::Text(emitted.pattern.name),
            EngineColumn::NameHex => Cell::Hex(emitted.pattern.name),
            EngineColumn::Rule => field_cell(&emitted.pattern.outcome, Label::Rule),
            EngineColumn::Engine => Cell::Count(emitted.engine.number),
            EngineColumn::Kind => Cell::Text(word_of(emitted.engine.kind)),
            EngineColumn::Period => Cell::Count(emitted.engine.period),
            EngineColumn::Dx => Cell::Shift(emitted.engine.dx),
            EngineColumn::Dy => Cell::Shift(emitted.engine.dy),
            EngineColumn::Count => Cell::Count(emitted.engine.count),
            EngineColumn::Emits => Cell::Text(emitted.code),
            EngineColumn::CommonName => called(names, emitted.code),
            EngineColumn::EmitsCount => Cell::Count(emitted.count),
        }
    }
}

/// The row of emitted objects, in each of these columns that a table has. The only error is out of memory.
pub fn emitted_row<'a>(
    alloc: Global,
    names: Option<&'a Names>,
    columns: &[EngineColumn],
    emitted: &Emitted<'a>,
) -> Result<Vec<Field<'a>>, AllocError>
    ensures { IfOk result
        (λ row. row_of row.items ≡ emitted_row (option_copied names.entry) columns.now emitted.now) }
{
    let mut row = Vec::with_capacity(alloc, columns.len())?;
    for column in columns {
        if column.is_there(names) {
            row.push(Field {
                name: column.name(),
                cell: column.cell(names, emitted),
            })?;
        }
    }
    Ok(row)
}
