//! The objects in reports.
ghost use Rattle.std.specs.Prelude.{◌≡◌};
ghost use Rattle.census_rows.specs.declared.row.Row.{Row};
ghost use Rattle.census_table.specs.Objects.{object_of_row, object_with, text_in};
ghost use Rattle.census_table.specs.Places.{code_in, rule_in};

use crate::entry::Entry;
use census_rows::{Label, Row, Value};

/// An object in reports, which is a code under a rule: for one pattern, or for several together.
#[derive(Clone, Copy)]
pub struct Object<'a> {
    /// The first pattern for which it is reported.
    pub first: Entry<'a>,
    pub rule: &'a [u8],
    pub code: &'a [u8],
    /// The number of such objects, at most 2^64 - 1.
    pub count: u64,
    /// The number of patterns for which it is reported, at most 2^64 - 1.
    pub patterns: u64,
    /// Their share of all objects of a table, in millionths, or 0 where there is no table.
    pub share: u64,
}

// The bytes of a value that is a text.
fn text_in(value: Option<Value>) -> Option<&[u8]>
    ensures { result ≡ text_in value.entry }
{
    match value {
        Some(Value::Text(bytes)) => Some(bytes),
        _ => None,
    }
}

// The code in a row.
pub fn code_in<'a>(row: &Row<'a>) -> Option<&'a [u8]>
    ensures { result ≡ code_in row.now }
{
    match row {
        Row::Line { outcome, .. } => text_in(outcome.value(Label::Code)),
        Row::Part { code, .. } => Some(*code),
        _ => None,
    }
}

// The rule of a line.
pub fn rule_in<'a>(row: &Row<'a>) -> Option<&'a [u8]>
    ensures { result ≡ rule_in row.now }
{
    match row {
        Row::Line { outcome, .. } => text_in(outcome.value(Label::Rule)),
        _ => None,
    }
}

// `count` objects with a code, reported for a pattern, under the pattern's rule.
fn object_with<'a>(
    entry: &Option<Entry<'a>>,
    count: u64,
    code: Option<&'a [u8]>,
) -> Option<Object<'a>>
    ensures { result ≡ object_with entry.now count code.entry }
{
    let (Some(entry), Some(code)) = (entry, code) else {
        return None;
    };
    let rule = text_in(entry.outcome.value(Label::Rule))?;
    Some(Object {
        first: *entry,
        rule,
        code,
        count,
        patterns: 1,
        share: 0,
    })
}

// The objects that a row reports for the pattern of the last line.
pub fn object_of_row<'a>(entry: &Option<Entry<'a>>, row: &Row<'a>) -> Option<Object<'a>>
    ensures { result ≡ object_of_row entry.now row.now }
{
    match row {
        Row::Line { outcome, .. } => object_with(entry, 1, text_in(outcome.value(Label::Code))),
        Row::Part { code, count, .. } => object_with(entry, *count, Some(*code)),
        _ => None,
    }
}
