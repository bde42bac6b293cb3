//! How far the section of a collection is read.
ghost use Rattle.std.specs.Prelude.{◌≡◌, ◌+◌, ◌<◌, ◌^◌, IfOk, IsTrue};
ghost use Rattle.census_readback.specs.Sections.{closes, counted, place_after, first_place, may_stand, next_within, same_behind, tells_next, with_line, with_part, with_told};

use crate::counts::Counts;
use crate::limits::COUNT_LIMIT;
use census_rows::{Behind, Class, Outcome, Row};
use std::alloc::{AllocError, Global};

// What was read between the `open` and the `close` line. It is small, since tens of thousands of collections may be open at
// once.
#[derive(Drop)]
pub struct Tally<'a> {
    // How many patterns the collection has.
    pub patterns: u16,
    // How many of them are read.
    pub read: u16,
    pub resolved: u16,
    pub unresolved: u16,
    pub refused: u16,
    // Which lines may come after that of the last pattern.
    pub behind: Behind,
    // The objects that the lines count.
    pub counts: Counts<'a>,
    // How many of them `code` lines have reported.
    pub told: usize,
}

#[derive(Drop)]
pub enum Place<'a> {
    Before,
    Within(Tally<'a>),
    Behind,
}

// Counts one more pattern, of this class.
fn count<'a>(tally: &mut Tally<'a>, class: Class)
    ensures { tally.new ≡ counted tally.old class }
{
    match class {
        Class::Resolved => tally.resolved = tally.resolved.saturating_add(1),
        Class::Unresolved => tally.unresolved = tally.unresolved.saturating_add(1),
        Class::Refused => tally.refused = tally.refused.saturating_add(1),
    }
}

// With the line of one more pattern.
fn with_line<'a>(
    alloc: Global,
    mut tally: Tally<'a>,
    outcome: &Outcome<'a>,
) -> Result<Tally<'a>, AllocError>
    requires { tally.read < tally.patterns }
    ensures { IfOk result (λ after. after ≡ with_line tally.entry outcome.now) }
{
    tally.counts.line(alloc, outcome)?;
    count(&mut tally, outcome.class());
    tally.read += 1;
    tally.behind = outcome.behind();
    Ok(tally)
}

pub fn same_behind(one: Behind, other: Behind) -> bool
    ensures { result ≡ same_behind one other }
{
    match (one, other) {
        (Behind::Nothing, Behind::Nothing) => true,
        (Behind::Parts, Behind::Parts) => true,
        (Behind::Engines, Behind::Engines) => true,
        _ => false,
    }
}

// Whether lines of this kind may come after the line of the last pattern.
fn may_stand(tally: &Tally, kind: Behind, pattern: u64) -> bool
    ensures { result ≡ may_stand tally.now kind pattern }
{
    same_behind(tally.behind, kind) && pattern == u64::from(tally.read)
}

// With `count` objects of the last pattern.
fn with_part<'a>(
    alloc: Global,
    mut tally: Tally<'a>,
    code: &'a [u8],
    count: u64,
) -> Result<Tally<'a>, AllocError>
    ensures { IfOk result (λ after. after ≡ with_part tally.entry code.now count) }
{
    tally.counts.part(alloc, code, count)?;
    Ok(tally)
}

// Whether the next of the objects that were counted is this one, and there are `count` of it.
fn tells_next<'a>(tally: &Tally<'a>, rule: &'a [u8], code: &'a [u8], count: u64) -> bool
    ensures value { result ≡ tells_next tally.now rule.now code.now count }
    ensures within { IsTrue result → tally.now.told + 1 < 2 ^ 64 }
{
    tally.counts.has(tally.told, rule, code, count)
}

// With one more `code` line.
fn with_told<'a>(tally: Tally<'a>) -> Tally<'a>
    requires { tally.told + 1 < 2 ^ 64 }
    ensures { result ≡ with_told tally.entry }
{
    Tally {
        behind: Behind::Nothing,
        told: tally.told + 1,
        ..tally
    }
}

// Whether all patterns are read, these are their numbers, and each object that was counted is reported.
fn closes(tally: &Tally, patterns: u64, resolved: u64, unresolved: u64, refused: u64) -> bool
    ensures { result ≡ closes tally.now (record {
      patterns = patterns;
      resolved = resolved;
      unresolved = unresolved;
      refused = refused;
    }) }
{
    tally.read == tally.patterns
        && patterns == u64::from(tally.patterns)
        && resolved == u64::from(tally.resolved)
        && unresolved == u64::from(tally.unresolved)
        && refused == u64::from(tally.refused)
        && tally.told == tally.counts.len()
}

// The place after a row between `open` and `close`, if it may come here.
fn next_within<'a>(
    alloc: Global,
    tally: Tally<'a>,
    row: &Row<'a>,
) -> Result<Option<Place<'a>>, AllocError>
    ensures { IfOk result (λ place. place ≡ next_within tally.entry row.now) }
{
    match row {
        Row::Line {
            pattern,
            outcome,
            ..
        } if tally.read < tally.patterns && *pattern == u64::from(tally.read) + 1 => {
            Ok(Some(Place::Within(with_line(alloc, tally, outcome)?)))
        }
        Row::Part {
            pattern,
            code,
            count,
            ..
        } if may_stand(&tally, Behind::Parts, *pattern) => {
            Ok(Some(Place::Within(with_part(alloc, tally, *code, *count)?)))
        }
        Row::Engine { pattern, .. } | Row::Emits { pattern, .. }
            if may_stand(&tally, Behind::Engines, *pattern) => { Ok(Some(Place::Within(tally))) }
        Row::Code {
            rule,
            code,
            count,
            ..
        } if tally.read == tally.patterns && tells_next(&tally, *rule, *code, *count) => {
            Ok(Some(Place::Within(with_told(tally))))
        }
        Row::Close {
            patterns,
            resolved,
            unresolved,
            refused,
            ..
        } if closes(&tally, *patterns, *resolved, *unresolved, *refused) => {
            Ok(Some(Place::Behind))
        }
        _ => Ok(None),
    }
}

// The place after the first row of a collection, which must be `open`.
fn first_place<'a>(row: &Row<'a>) -> Option<Place<'a>>
    ensures { result ≡ first_place row.now }
{
    match row {
        Row::Open { patterns, .. } if *patterns <= COUNT_LIMIT => Some(Place::Within(Tally {
            patterns: *patterns as u16,
            read: 0,
            resolved: 0,
            unresolved: 0,
            refused: 0,
            behind: Behind::Nothing,
            counts: Counts::nothing(),
            told: 0,
        })),
        _ => None,
    }
}

// The place after this row of the collection, if it may come here.
pub fn next<'a>(
    alloc: Global,
    place: Place<'a>,
    row: &Row<'a>,
) -> Result<Option<Place<'a>>, AllocError>
    ensures { IfOk result (λ after. after ≡ place_after place.entry row.now) }
{
    match place {
        Place::Before => Ok(first_place(row)),
        Place::Within(tally) => next_within(alloc, tally, row),
        Place::Behind => Ok(None),
    }
}
