//! The things that a table has rows for, collection by collection.
ghost use Rattle.std.specs.Prelude.{◌≡◌, ◌+◌, ◌<◌, ◌^◌, ◌++◌, [], length, slice_index_or};
ghost use Rattle.std.specs.List.{cons_option};
ghost use Rattle.census_table.specs.Emitting.{no_last};
ghost use Rattle.census_table.specs.Tables.{table_from, table_size};
ghost use Rattle.census_table.specs.Things.{lines_size, section_things, things_from};

use crate::counting::{Kinds, with_share};
use crate::engine::Last;
use crate::subject::Table;
use crate::thing::{Item, Thing, next_thing};
use census_readback::Sections;
use census_rows::{Row, Section};

/// Rows of reports from which a table is made, or kinds of objects.
#[derive(Drop)]
pub enum Lines<'t, 'b, 'a> {
    /// The rows of a collection that has this number and that the heading opens. Each may add an item.
    Rows(Item, u64, Row<'a>, Section<'t, 'a>),
    /// Each of these kinds is added, with its share of this number of objects.
    Kinds(&'t Kinds<'b, 'a>, u64),
}

impl<'t, 'b, 'a> Lines<'t, 'b, 'a> {
    /// The number of rows or kinds.
    pub fn len(&self) -> usize
        ensures { result ≡ lines_size self.now }
    {
        match self {
            Lines::Rows(_, _, _, rows) => rows.len(),
            Lines::Kinds(kinds, _) => kinds.len(),
        }
    }

    /// The thing that the row or the kind at this index adds to a table. `last` is what was reported last before it, and
    /// afterwards what was reported last up to it.
    pub fn thing(&self, index: usize, last: &mut Last<'a>) -> Option<Thing<'t, 'a>>
        requires within { index < lines_size self.now }
        requires few { index + 1 < 2 ^ 64 }
        ensures { things_from self.now last.old index
            ≡ cons_option result (things_from self.now last.new (index + 1)) }
    {
        match self {
            Lines::Rows(item, number, heading, rows) => {
                let behind = rows.from(index + 1);
                next_thing(*item, *number, heading, last, &rows.row(index), behind)
            }
            Lines::Kinds(kinds, total) => {
                Some(Thing::Kind(with_share(*total, &kinds.kind(index))))
            }
        }
    }
}

// The rows of the collection at this index.
fn lines_in<'t, 'b, 'a>(
    item: Item,
    sections: &'t Sections<'b, 'a>,
    index: usize,
) -> Lines<'t, 'b, 'a>
    requires within { index < length sections.now }
    requires few { index + 1 < 2 ^ 64 }
    ensures { things_from result no_last 0 ≡ section_things item (index + 1) (slice_index_or sections.now index []) }
{
    let section = sections.section(index);
    let number = (index + 1) as u64;
    match section.split_first() {
        Some((heading, rows)) => Lines::Rows(item, number, heading, rows),
        None => {
            let heading = Row::End {
                collections: 0,
                patterns: 0,
            };
            Lines::Rows(item, number, heading, section)
        }
    }
}

impl<'b, 'a> Table<'b, 'a> {
    // The number of collections, or 1 where the table has kinds.
    pub(crate) fn len(&self) -> usize
        ensures { result ≡ table_size self.now }
    {
        match self {
            Table::Patterns(sections) => sections.len(),
            Table::Parts(sections) => sections.len(),
            Table::Engines(sections) => sections.len(),
            Table::Codes(_, _, _) => 1,
        }
    }

    // The rows of the collection at this index, or all kinds where the table has kinds.
    pub(crate) fn lines(&self, index: usize) -> Lines<'_, 'b, 'a>
        requires within { index < table_size self.now }
        requires few { index + 1 < 2 ^ 64 }
        ensures { table_from self.now index
            ≡ things_from result no_last 0 ++ table_from self.now (index + 1) }
    {
        match self {
            Table::Patterns(sections) => lines_in(Item::Pattern, sections, index),
            Table::Parts(sections) => lines_in(Item::Part, sections, index),
            Table::Engines(sections) => lines_in(Item::Emitted, sections, index),
            Table::Codes(_, kinds, total) => Lines::Kinds(kinds, *total),
        }
    }
}
