//! The patterns that have a code.
ghost use Rattle.std.specs.Prelude.{◌≡◌};
ghost use Rattle.census_page.specs.Pages.{row_at};

use crate::speed::Way;
use census_rows::{Behind, Finding, Outcome, Row, Section};
use std::alloc::{AllocError, Global};
use std::cmp::Ordering;

/// The relation of a pattern to a code.
#[derive(Clone, Copy)]
pub enum Share {
    /// It has the code. The fields are its number of cells at first, the generation from which it recurs, and its motion.
    Whole {
        population: u64,
        onset: u64,
        way: Way,
    },
    /// This number of its parts has the code.
    Parts {
        count: u64,
    },
}

/// A pattern, and a code that it or one of its parts has.
#[derive(Clone, Copy)]
pub struct Holder<'a> {
    pub rule: &'a [u8],
    pub code: &'a [u8],
    pub name: &'a [u8],
    pub share: Share,
}

/// The places of the rows of a pattern and of its code among those of a collection, counted from 0, in 8 bytes.
#[derive(Clone, Copy)]
pub struct Place {
    /// The row of the last pattern that has parts, or a number after the last row if none has had parts yet.
    line: u32,
    /// The row that has the code.
    row: u32,
}

/// Patterns of a collection with their codes, in an order of their own. They are borrowed, by the places of their rows.
#[derive(Clone, Copy)]
pub struct Holders<'s, 'b, 'a> {
    pub rows: &'s Section<'b, 'a>,
    pub places: &'s [Place],
}

/// The row with this number, or the end of a report if there is none.
pub fn row_or_end<'a>(rows: &Section<'_, 'a>, number: usize) -> Row<'a>
    ensures { result ≡ row_at rows.now number }
{
    if number < rows.len() {
        rows.row(number)
    } else {
        Row::End {
            collections: 0,
            patterns: 0,
        }
    }
}

// True where `part` rows follow a row.
fn has_parts(row: &Row) -> bool {
    match row {
        Row::Line { outcome, .. } => match outcome.behind() {
            Behind::Parts => true,
            _ => false,
        },
        _ => false,
    }
}

// The pattern with this outcome and this name, if it recurs.
fn whole_in<'a>(outcome: &Outcome<'a>, name: &'a [u8]) -> Option<Holder<'a>> {
    match outcome {
        Outcome::Found {
            rule,
            population,
            finding: Finding::Ok {
                onset,
                period,
                dx,
                dy,
                code,
            },
        } => Some(Holder {
            rule: *rule,
            code: *code,
            name,
            share: Share::Whole {
                population: *population,
                onset: *onset,
                way: Way {
                    period: *period,
                    dx: *dx,
                    dy: *dy,
                },
            },
        }),
        _ => None,
    }
}

// The pattern of a `line` row, with a code that this number of its parts have.
fn holder_by_part<'a>(line: &Row<'a>, code: &'a [u8], count: u64) -> Option<Holder<'a>> {
    match line {
        Row::Line {
            outcome: Outcome::Found { rule, .. },
            name,
            ..
        } => Some(Holder {
            rule: *rule,
            code,
            name: *name,
            share: Share::Parts { count },
        }),
        _ => None,
    }
}

// The pattern that has the code in the row at index `row`, where the last pattern that has parts is at index `line`.
fn holder_in<'a>(rows: &Section<'_, 'a>, line: usize, row: usize) -> Option<Holder<'a>> {
    match row_or_end(rows, row) {
        Row::Line { outcome, name, .. } => whole_in(&outcome, name),
        Row::Part { code, count, .. } => holder_by_part(&row_or_end(rows, line), code, count),
        _ => None,
    }
}

/// The pattern at a place, if there is one.
pub fn holder_at<'a>(rows: &Section<'_, 'a>, place: &Place) -> Option<Holder<'a>> {
    holder_in(rows, place.line as usize, place.row as usize)
}

// The place that has these indices. The only error is out of memory, where an index is 2^32 or more: that many rows do not fit
// into the memory of a report.
fn place_of(line: usize, row: usize) -> Result<Place, AllocError> {
    Ok(Place {
        line: u32::try_from(line).map_err(|_| AllocError)?,
        row: u32::try_from(row).map_err(|_| AllocError)?,
    })
}

// The number of patterns with codes among a collection's rows; a pattern with parts counts once for each `part` row.
fn count_held(rows: &Section) -> usize {
    let mut count = 0;
    let mut line = rows.len();
    for index in 0..rows.len() {
        if has_parts(&rows.row(index)) {
            line = index;
        }
        if holder_in(rows, line, index).is_some() {
            count += 1;
        }
    }
    count
}

/// The places of the patterns of a collection's rows with their codes, in the order of the rows. A pattern that has fallen
/// apart occurs once for each code of its parts. The only error is out of memory.
pub fn places(alloc: Global, rows: &Section) -> Result<Vec<Place>, AllocError> {
    let mut places = Vec::with_capacity(alloc, count_held(rows))?;
    let mut line = rows.len();
    for index in 0..rows.len() {
        if has_parts(&rows.row(index)) {
            line = index;
        }
        if holder_in(rows, line, index).is_some() {
            places.push(place_of(line, index)?)?;
        }
    }
    Ok(places)
}

// The code and the rule of the pattern at a place, or nothing if there is none.
fn key_at<'a>(rows: &Section<'_, 'a>, place: &Place) -> (&'a [u8], &'a [u8]) {
    match holder_at(rows, place) {
        Some(holder) => (holder.code, holder.rule),
        None => (b"", b""),
    }
}

// The order of the pattern at a place and of a code under a rule: by codes, and by rules under one code.
fn compared(rows: &Section, place: &Place, rule: &[u8], code: &[u8]) -> Ordering {
    let (code_here, rule_here) = key_at(rows, place);
    code_here.cmp(code).then(rule_here.cmp(rule))
}

/// Sorts the places of patterns by their codes, and by their rules under one code. Patterns with the same code and rule keep
/// their order. The only error is out of memory.
pub fn put_in_order(rows: &Section, places: &mut Vec<Place>) -> Result<(), AllocError> {
    places.sort_by(|one, other| {
        let (code, rule) = key_at(rows, other);
        compared(rows, one, rule, code)
    })
}

impl<'s, 'b, 'a> Holders<'s, 'b, 'a> {
    /// The patterns that have this code under this rule, in their order.
    pub fn having(&self, rule: &[u8], code: &[u8]) -> Holders<'s, 'b, 'a> {
        let rows = self.rows;
        let places = self.places;
        let before = places.partition_point(|place| compared(rows, place, rule, code).is_lt());
        let (_, places) = places.split_at(before);
        let count = places.partition_point(|place| compared(rows, place, rule, code).is_eq());
        let (places, _) = places.split_at(count);
        Holders { rows, places }
    }

    /// The first pattern.
    pub fn first(&self) -> Option<Holder<'a>> {
        match self.places {
            [place, ..] => holder_at(self.rows, place),
            [] => None,
        }
    }

    /// The motion of the first of these patterns, if it recurs.
    pub fn way(&self) -> Option<Way> {
        match self.first() {
            Some(
                Holder {
                    share: Share::Whole { way, .. },
                    ..
                },
            ) => Some(way),
            _ => None,
        }
    }
}
