//! The numbers of rows of each kind.
use crate::fate::has_row;
use crate::kind::{Kind, kind_of};
use crate::sorting::count_in;
use census_rows::{Class, Row, Rows, Section};

/// The rows that are counted.
#[derive(Clone, Copy)]
pub enum Which {
    /// The rows for which the page has a row, where all patterns are shown or not.
    Shown(bool),
    /// The rows that report codes of this kind.
    Of(Kind),
    /// The rows for which the page has a row, except those of still lifes, oscillators and spaceships, where all patterns are
    /// shown or not.
    Others(bool),
    /// The rows that report codes.
    Codes,
    /// The rows that report patterns with a row of their own, where all patterns are shown or not.
    Strays(bool),
    /// The rows that report patterns.
    Patterns,
    /// The rows that report patterns of this class.
    Are(Class),
}

// True where two classes are equal.
fn is_class(one: Class, other: Class) -> bool {
    match (one, other) {
        (Class::Resolved, Class::Resolved) => true,
        (Class::Unresolved, Class::Unresolved) => true,
        (Class::Refused, Class::Refused) => true,
        _ => false,
    }
}

// True where a row is one of these.
fn counts(which: Which, row: &Row) -> bool {
    match row {
        Row::Code { code, .. } => match which {
            Which::Shown(_) | Which::Codes => true,
            Which::Of(kind) => kind_of(*code) == kind,
            Which::Others(_) => kind_of(*code) == Kind::Other,
            _ => false,
        },
        Row::Line { outcome, .. } => match which {
            Which::Shown(patterns) | Which::Others(patterns) | Which::Strays(patterns) => {
                has_row(patterns, outcome)
            }
            Which::Codes | Which::Of(_) => false,
            Which::Patterns => true,
            Which::Are(class) => is_class(outcome.class(), class),
        },
        _ => false,
    }
}

/// The number of these among all rows.
pub fn count_of(which: Which, rows: &Rows) -> u64 {
    let mut count = 0;
    for index in 0..rows.len() {
        if counts(which, &rows.row(index)) {
            count += 1;
        }
    }
    count
}

/// The number of these among borrowed rows.
pub fn count_among(which: Which, rows: &Section) -> usize {
    let mut count = 0;
    for index in 0..rows.len() {
        if counts(which, &rows.row(index)) {
            count += 1;
        }
    }
    count
}

/// The number of objects that all rows report, at most 2^64 - 1.
pub fn objects_of(rows: &Rows) -> u64 {
    let mut objects: u64 = 0;
    for index in 0..rows.len() {
        objects = objects.saturating_add(count_in(&rows.row(index)));
    }
    objects
}

/// The number of objects that borrowed rows report, at most 2^64 - 1.
pub fn objects_among(rows: &Section) -> u64 {
    let mut objects: u64 = 0;
    for index in 0..rows.len() {
        objects = objects.saturating_add(count_in(&rows.row(index)));
    }
    objects
}
