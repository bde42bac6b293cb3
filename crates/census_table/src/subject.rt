//! The kind of things that a table has rows for.
ghost use Rattle.std.specs.Prelude.{◌≡◌, filter, map, IfOk};
ghost use Rattle.std.specs.Option.{option_copied};
ghost use Rattle.census_readback.specs.Shapes.{AreReports};
ghost use Rattle.census_table.specs.Columns.{is_shown, name_of};
ghost use Rattle.census_table.specs.EngineColumns.{heading_of, is_headed};
ghost use Rattle.census_table.specs.ObjectColumns.{is_there, title_of};
ghost use Rattle.census_table.specs.Tables.{IsListingOf, listing_of, titles_of};

use crate::column::Column;
use crate::counting::{Kinds, kinds_of, left_in};
use crate::engine_column::EngineColumn;
use crate::object_column::ObjectColumn;
use census_facts::Names;
use census_readback::{Sections, collections};
use census_rows::Rows;
use std::alloc::{AllocError, Global};

/// The choice of a table's codes, and their order.
#[derive(Clone, Copy, Debug, PartialEq, Eq)]
pub struct Choice {
    /// True where they are ordered by rising count first, and then as otherwise.
    pub rare: bool,
    /// True where those that have a name are left out. The share of each of the others is still that of all objects.
    pub unnamed: bool,
}

/// The kind of things that a table has rows for.
#[derive(Clone, Copy, Debug, PartialEq, Eq)]
pub enum Subject {
    /// A pattern.
    Patterns,
    /// A `part` row, which gives the number of parts of a pattern with one code.
    Parts,
    /// An `emits` row, which gives the number of objects with one code that engines of a pattern emit.
    Engines,
    /// A code under a rule, by falling count and then in the order of codes: the shorter first, codes of equal length by
    /// their bytes, and then by the bytes of the rule.
    Codes(Choice),
}

/// The content of a table.
#[derive(Drop)]
pub enum Table<'b, 'a> {
    /// The patterns of collections that are numbered from 1.
    Patterns(Sections<'b, 'a>),
    /// The parts of such patterns.
    Parts(Sections<'b, 'a>),
    /// The objects that the engines of such patterns emit.
    Engines(Sections<'b, 'a>),
    /// The kinds of objects of this choice, and the number of objects of all kinds, at most 2^64 - 1.
    Codes(Choice, Kinds<'b, 'a>, u64),
}

/// The content of the table of a sequence of reports, where codes have these names. The only error is out of memory.
pub fn table_of<'b, 'a>(
    alloc: Global,
    subject: Subject,
    names: Option<&Names>,
    rows: &'b Rows<'a>,
) -> Result<Table<'b, 'a>, AllocError>
    requires { AreReports rows.now }
    ensures { IfOk result (λ table. IsListingOf subject (option_copied names.entry) rows.now (listing_of table)) }
{
    let sections = collections(alloc, rows)?;
    match subject {
        Subject::Patterns => Ok(Table::Patterns(sections)),
        Subject::Parts => Ok(Table::Parts(sections)),
        Subject::Engines => Ok(Table::Engines(sections)),
        Subject::Codes(choice) => {
            let kinds = kinds_of(alloc, choice.rare, sections)?;
            let total = kinds.total();
            let left = left_in(alloc, names, choice.unnamed, kinds)?;
            Ok(Table::Codes(choice, left, total))
        }
    }
}

// The names of those of these columns that a table has.
fn names_of(
    alloc: Global,
    names: Option<&Names>,
    columns: &[ObjectColumn],
) -> Result<Vec<&'static str>, AllocError>
    ensures { IfOk result (λ titles. map (λ s. s.now) titles.items
        ≡ map title_of (filter (is_there (option_copied names.entry)) columns.now)) }
{
    let mut titles = Vec::new(alloc);
    for column in columns {
        if column.is_there(names) {
            titles.push(column.name())?;
        }
    }
    Ok(titles)
}

// The names of those of these columns that are shown.
fn pattern_names(
    alloc: Global,
    names: Option<&Names>,
    columns: &[Column],
) -> Result<Vec<&'static str>, AllocError>
    ensures { IfOk result (λ titles. map (λ s. s.now) titles.items
        ≡ map name_of (filter (is_shown (option_copied names.entry)) columns.now)) }
{
    let mut titles = Vec::new(alloc);
    for column in columns {
        if column.is_shown(names) {
            titles.push(column.name())?;
        }
    }
    Ok(titles)
}

// The names of those of these columns that a table of engines has.
fn engine_names(
    alloc: Global,
    names: Option<&Names>,
    columns: &[EngineColumn],
) -> Result<Vec<&'static str>, AllocError>
    ensures { IfOk result (λ titles. map (λ s. s.now) titles.items
        ≡ map heading_of (filter (is_headed (option_copied names.entry)) columns.now)) }
{
    let mut titles = Vec::new(alloc);
    for column in columns {
        if column.is_there(names) {
            titles.push(column.name())?;
        }
    }
    Ok(titles)
}

impl Table<'_, '_> {
    /// The names of the columns. If codes have names, the column after that of the codes is for these. The only error is out of
    /// memory.
    pub fn names(
        &self,
        alloc: Global,
        names: Option<&Names>,
    ) -> Result<Vec<&'static str>, AllocError>
        ensures { IfOk result (λ titles. map (λ s. s.now) titles.items
            ≡ titles_of (option_copied names.entry) (listing_of self.now).subject) }
    {
        match self {
            Table::Patterns(_) => pattern_names(alloc, names, &Column::ALL),
            Table::Parts(_) => names_of(alloc, names, &ObjectColumn::OF_PARTS),
            Table::Engines(_) => engine_names(alloc, names, &EngineColumn::ALL),
            Table::Codes(_, _, _) => names_of(alloc, names, &ObjectColumn::OF_CODES),
        }
    }
}
