//! Engines in reports, and what they emit.
ghost use Rattle.std.specs.Prelude.{◌≡◌};
ghost use Rattle.std.specs.List.{list_all, take_while};
ghost use Rattle.census_readback.specs.Following.{is_emits};
ghost use Rattle.census_table.specs.Emitting.{emits_spaceship, engine_kind, engine_of_row, emitted_of, is_spaceship, last_after, stays};

use crate::entry::{Entry, entry_of_row};
use census_readback::emits_first;
use census_rows::{Row, Section};

/// A kind of engine.
#[derive(Clone, Copy, Debug, PartialEq, Eq)]
pub enum EngineKind {
    /// It stays in its place.
    Gun,
    /// It moves, and emits only spaceships.
    Rake,
    /// It moves, and leaves other objects.
    Puffer,
}

/// Equal engines in a report, apart from what they emit.
#[derive(Clone, Copy)]
pub struct EngineTold {
    /// The number of the line in its pattern.
    pub number: u64,
    pub kind: EngineKind,
    /// The period of each.
    pub period: u64,
    /// The distance that each moves to the right in a period.
    pub dx: i64,
    /// The distance that each moves down in a period.
    pub dy: i64,
    /// The number of these engines.
    pub count: u64,
}

/// Objects of one code that such engines emit.
#[derive(Clone, Copy)]
pub struct Emitted<'a> {
    pub pattern: Entry<'a>,
    pub engine: EngineTold,
    pub code: &'a [u8],
    /// The number of them that each engine emits in a period.
    pub count: u64,
}

/// The pattern and the engines that were reported last.
#[derive(Clone, Copy)]
pub struct Last<'a> {
    pub pattern: Option<Entry<'a>>,
    pub engine: Option<EngineTold>,
}

impl Last<'_> {
    /// Nothing, as before any row.
    pub const NOTHING: Last<'static> = Last {
        pattern: None,
        engine: None,
    };
}

// True where a code is that of a spaceship.
fn is_spaceship(code: &[u8]) -> bool
    ensures { result ≡ is_spaceship code.now }
{
    match code {
        [first, second, ..] => *first == b'x' && *second == b'q',
        _ => false,
    }
}

// True where a row reports emitted spaceships.
fn emits_spaceship(row: &Row) -> bool
    ensures { result ≡ emits_spaceship row.now }
{
    match row {
        Row::Emits { code, .. } => is_spaceship(code),
        _ => false,
    }
}

// True where all rows report emitted spaceships.
fn emit_spaceships(rows: &Section) -> bool
    ensures { result ≡ list_all emits_spaceship rows.now }
{
    for index in 0..rows.len() {
        if !emits_spaceship(&rows.row(index)) {
            return false;
        }
    }
    true
}

// True where an engine that moves this far to the right and down in a period stays in its place.
fn stays(dx: i64, dy: i64) -> bool
    ensures { result ≡ stays dx dy }
{
    dx == 0 && dy == 0
}

// The kind of an engine that moves this far to the right and down in a period, where these rows report what it emits.
fn engine_kind(dx: i64, dy: i64, emits: &Section) -> EngineKind
    ensures { result ≡ engine_kind dx dy emits.now }
{
    if stays(dx, dy) {
        EngineKind::Gun
    } else if emit_spaceships(emits) {
        EngineKind::Rake
    } else {
        EngineKind::Puffer
    }
}

// The engines that a row reports, where the first of the rows after it report what each emits.
fn engine_of_row(row: &Row, behind: &Section) -> Option<EngineTold>
    ensures { result ≡ engine_of_row row.now behind.now }
{
    match row {
        Row::Engine {
            number,
            period,
            dx,
            dy,
            count,
            ..
        } => Some(EngineTold {
            number: *number,
            kind: engine_kind(*dx, *dy, &emits_first(behind)),
            period: *period,
            dx: *dx,
            dy: *dy,
            count: *count,
        }),
        _ => None,
    }
}

impl<'a> Last<'a> {
    /// The pattern and the engines reported last after a row that these follow, in the collection that `heading` opens and that
    /// has this number.
    pub fn after(
        &self,
        number: u64,
        heading: &Row<'a>,
        row: &Row<'a>,
        behind: &Section<'_, 'a>,
    ) -> Last<'a>
        ensures { result ≡ last_after number heading.now self.now row.now behind.now }
    {
        Last {
            pattern: entry_of_row(number, heading, row).or(self.pattern),
            engine: engine_of_row(row, behind).or(self.engine),
        }
    }

    /// The objects that a row reports as emitted by the last engines.
    pub fn emitted(&self, row: &Row<'a>) -> Option<Emitted<'a>>
        ensures { result ≡ emitted_of self.now row.now }
    {
        let (Some(pattern), Some(engine)) = (&self.pattern, &self.engine) else {
            return None;
        };
        match row {
            Row::Emits { code, count, .. } => Some(Emitted {
                pattern: *pattern,
                engine: *engine,
                code: *code,
                count: *count,
            }),
            _ => None,
        }
    }
}
