//! The columns of tables of objects.
ghost use Rattle.std.specs.Prelude.{◌≡◌, IfOk};
ghost use Rattle.std.specs.Option.{option_copied};
ghost use Rattle.census_table.specs.Contents.{content_of, row_of};
ghost use Rattle.census_table.specs.ObjectColumns.{content_of_object, is_there, object_row, title_of};

use crate::called::called;
use crate::cell::{Cell, Field};
use crate::object::Object;
use census_facts::Names;
use std::alloc::{AllocError, Global};

/// A column of a table of parts or of codes.
#[derive(Clone, Copy)]
pub enum ObjectColumn {
    /// The number of the pattern's collection in its report.
    Collection,
    /// The name of the pattern's collection.
    CollectionName,
    /// The pattern's number in its collection.
    Pattern,
    /// The pattern's name.
    Name,
    /// The rule.
    Rule,
    /// The object's code.
    Code,
    /// The name of its code, if the given names have one.
    CommonName,
    /// The number of such objects, at most 2^64 - 1.
    Count,
    /// The number of patterns that they occur in, at most 2^64 - 1.
    Patterns,
    /// The name of the collection of the first of these patterns.
    FirstCollectionName,
    /// The name of the first of these patterns.
    FirstName,
    /// Their share of all objects, with six digits after the point.
    Share,
}

impl ObjectColumn {
    /// The columns of a table of parts, in their order.
    pub const OF_PARTS: [ObjectColumn; 8] = [
        ObjectColumn::Collection,
        ObjectColumn::CollectionName,
        ObjectColumn::Pattern,
        ObjectColumn::Name,
        ObjectColumn::Rule,
        ObjectColumn::Code,
        ObjectColumn::CommonName,
        ObjectColumn::Count,
    ];

    /// The columns of a table of codes, in their order.
    pub const OF_CODES: [ObjectColumn; 8] = [
        ObjectColumn::Rule,
        ObjectColumn::Code,
        ObjectColumn::CommonName,
        ObjectColumn::Count,
        ObjectColumn::Patterns,
        ObjectColumn::FirstCollectionName,
        ObjectColumn::FirstName,
        ObjectColumn::Share,
    ];

    /// The columns of a table of parts in the order of their names, which they have in JSON.
    pub const OF_PARTS_IN_JSON: [ObjectColumn; 8] = [
        ObjectColumn::Code,
        ObjectColumn::Collection,
        ObjectColumn::CollectionName,
        ObjectColumn::CommonName,
        ObjectColumn::Count,
        ObjectColumn::Name,
        ObjectColumn::Pattern,
        ObjectColumn::Rule,
    ];

    /// The columns of a table of codes in the order of their names.
    pub const OF_CODES_IN_JSON: [ObjectColumn; 8] = [
        ObjectColumn::Code,
        ObjectColumn::CommonName,
        ObjectColumn::Count,
        ObjectColumn::FirstCollectionName,
        ObjectColumn::FirstName,
        ObjectColumn::Patterns,
        ObjectColumn::Rule,
        ObjectColumn::Share,
    ];

    /// The column's name: lowercase letters and `_`.
    pub fn name(self) -> &'static str
        ensures { result.now ≡ title_of self }
    {
        match self {
            ObjectColumn::Collection => "collection",
            ObjectColumn::CollectionName => "collection_name",
            ObjectColumn::Pattern => "pattern",
            ObjectColumn::Name => "name",
            ObjectColumn::Rule => "rule",
            ObjectColumn::Code => "code",
            ObjectColumn::CommonName => "common_name",
            ObjectColumn::Count => "count",
            ObjectColumn::Patterns => "patterns",
            ObjectColumn::FirstCollectionName => "first_collection_name",
            ObjectColumn::FirstName => "first_name",
            ObjectColumn::Share => "share",
        }
    }

    /// True where a table has the column: a table without names has no column for them.
    pub fn is_there(self, names: Option<&Names>) -> bool
        ensures { result ≡ is_there (option_copied names.entry) self }
    {
        match self {
            ObjectColumn::CommonName => names.is_some(),
            _ => true,
        }
    }

    /// The cell of an object's row in the column.
    pub fn cell<'a>(self, names: Option<&'a Names>, object: &Object<'a>) -> Cell<'a>
        ensures { content_of result ≡ content_of_object (option_copied names.entry) self object.now }
    {
        match self {
            ObjectColumn::Collection => Cell::Count(object.first.collection),
            ObjectColumn::CollectionName => Cell::Text(object.first.collection_name),
            ObjectColumn::Pattern => Cell::Count(object.first.pattern),
            ObjectColumn::Name => Cell::Text(object.first.name),
            ObjectColumn::Rule => Cell::Text(object.rule),
            ObjectColumn::Code => Cell::Text(object.code),
            ObjectColumn::CommonName => called(names, object.code),
            ObjectColumn::Count => Cell::Count(object.count),
            ObjectColumn::Patterns => Cell::Count(object.patterns),
            ObjectColumn::FirstCollectionName => Cell::Text(object.first.collection_name),
            ObjectColumn::FirstName => Cell::Text(object.first.name),
            ObjectColumn::Share => Cell::Share(object.share),
        }
    }
}

/// The row of an object in each of these columns that a table has. The only error is out of memory.
pub fn object_row<'a>(
    alloc: Global,
    names: Option<&'a Names>,
    columns: &[ObjectColumn],
    object: &Object<'a>,
) -> Result<Vec<Field<'a>>, AllocError>
    ensures { IfOk result
        (λ row. row_of row.items ≡ object_row (option_copied names.entry) columns.now object.now) }
{
    let mut row = Vec::with_capacity(alloc, columns.len())?;
    for column in columns {
        if column.is_there(names) {
            row.push(Field {
                name: column.name(),
                cell: column.cell(names, object),
            })?;
        }
    }
    Ok(row)
}
