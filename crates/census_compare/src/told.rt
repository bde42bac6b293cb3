//! Which patterns are objects.
ghost use Rattle.std.specs.Prelude.{◌≡◌};
ghost use Rattle.census_compare.specs.SamePatterns.{collection_after, told_by, told_in};

use census_rows::{Label, Outcome, Row, Value};

/// A pattern that is an object: its code under its rule, and its name in its collection.
#[derive(Clone, Copy)]
pub struct Told<'a> {
    pub rule: &'a [u8],
    pub code: &'a [u8],
    pub collection: &'a [u8],
    pub name: &'a [u8],
}

/// A pattern whose names are all empty.
pub fn no_told<'a>() -> Told<'a> {
    Told {
        rule: &[],
        code: &[],
        collection: &[],
        name: &[],
    }
}

/// The name of the collection that was opened last, after a row.
pub fn collection_after<'a>(collection: &Option<&'a [u8]>, row: &Row<'a>) -> Option<&'a [u8]>
    ensures { result ≡ collection_after collection.now row.now }
{
    match row {
        Row::Open { name, .. } => Some(*name),
        _ => *collection,
    }
}

// The pattern with this name in a collection, if it is an object.
fn told_in<'a>(collection: &'a [u8], outcome: &Outcome<'a>, name: &'a [u8]) -> Option<Told<'a>>
    ensures { result ≡ told_in collection.entry outcome.now name.entry }
{
    match outcome {
        Outcome::Found { rule, .. } => match outcome.value(Label::Code) {
            Some(Value::Text(code)) => Some(Told {
                rule: *rule,
                code,
                collection,
                name,
            }),
            _ => None,
        },
        _ => None,
    }
}

/// The pattern of a row, if it is an object in a collection.
pub fn told_by<'a>(collection: &Option<&'a [u8]>, row: &Row<'a>) -> Option<Told<'a>>
    ensures { result ≡ told_by collection.now row.now }
{
    match (collection, row) {
        (Some(collection), Row::Line { outcome, name, .. }) => {
            told_in(*collection, outcome, *name)
        }
        _ => None,
    }
}
