//! The things that a table has rows for.
ghost use Rattle.std.specs.Prelude.{◌≡◌};
ghost use Rattle.census_table.specs.Entries.{entry_of_row};
ghost use Rattle.census_table.specs.Emitting.{last_after};
ghost use Rattle.census_table.specs.Things.{emitted_in, is_part, part_in, thing_of};

use crate::engine::{Emitted, Last};
use crate::entry::{Entry, entry_of_row, with_way};
use crate::object::{Object, object_of_row};
use census_rows::{Behind, Row, Section};

/// A thing that a table has a row for.
#[derive(Drop)]
pub enum Thing<'b, 'a> {
    /// A pattern, and the rows after its line in its collection.
    Pattern(Entry<'a>, Section<'b, 'a>),
    /// The parts of a pattern that are one object.
    Part(Object<'a>),
    /// The objects of one code that engines of a pattern emit.
    Emitted(Emitted<'a>),
    /// The objects of reports that are of one kind.
    Kind(Object<'a>),
}

/// The items of a collection that have a row in a table.
#[derive(Clone, Copy, Debug, PartialEq, Eq)]
pub enum Item {
    Pattern,
    Part,
    Emitted,
}

// True where an object is one of several that a pattern has fallen apart into.
fn is_part(object: &Object) -> bool
    ensures { result ≡ is_part object.now }
{
    match object.first.outcome.behind() {
        Behind::Parts => true,
        _ => false,
    }
}

// An object, if it is one of several that a pattern has fallen apart into.
fn part_in<'b, 'a>(object: Option<Object<'a>>) -> Option<Thing<'b, 'a>>
    ensures { result ≡ part_in object.entry }
{
    match object {
        Some(object) => {
            if is_part(&object) {
                Some(Thing::Part(object))
            } else {
                None
            }
        }
        None => None,
    }
}

// The objects that engines emit, if there are any.
fn emitted_in<'b, 'a>(emitted: Option<Emitted<'a>>) -> Option<Thing<'b, 'a>>
    ensures { result ≡ emitted_in emitted.entry }
{
    match emitted {
        Some(emitted) => Some(Thing::Emitted(emitted)),
        None => None,
    }
}

// The thing that a row adds to a table, where `own` is the pattern of its line, if it is one, and `last` is what was reported
// last up to it.
fn thing_of<'b, 'a>(
    item: Item,
    own: Option<Entry<'a>>,
    last: &Last<'a>,
    row: &Row<'a>,
    behind: Section<'b, 'a>,
) -> Option<Thing<'b, 'a>>
    ensures { result ≡ thing_of item own.entry last.now row.now behind.entry }
{
    match item {
        Item::Pattern => match own {
            Some(entry) => Some(Thing::Pattern(with_way(entry, &behind), behind)),
            None => None,
        },
        Item::Part => part_in(object_of_row(&last.pattern, row)),
        Item::Emitted => emitted_in(last.emitted(row)),
    }
}

/// The thing that a row before these adds to a table, in the collection that `heading` opens and that has this number. `last`
/// is what was reported last before the row, and afterwards what was reported last up to it.
pub fn next_thing<'b, 'a>(
    item: Item,
    number: u64,
    heading: &Row<'a>,
    last: &mut Last<'a>,
    row: &Row<'a>,
    behind: Section<'b, 'a>,
) -> Option<Thing<'b, 'a>>
    ensures last { last.new ≡ last_after number heading.now last.old row.now behind.entry }
    ensures thing { result ≡ thing_of item (entry_of_row number heading.now row.now)
        (last_after number heading.now last.old row.now behind.entry) row.now behind.entry }
{
    let own = entry_of_row(number, heading, row);
    *last = last.after(number, heading, row, &behind);
    thing_of(item, own, last, row, behind)
}
