//! What the rows of a report say together.
ghost use Rattle.std.specs.Prelude.{◌≡◌, IfOk, IsTrue};
ghost use Rattle.std.specs.Option.{option_map};
ghost use Rattle.std.specs.Ordering.{is_lt};
ghost use Rattle.census_rows.specs.Kinds.{said};
ghost use Rattle.census_rows.specs.Lines.{describes_growth};
ghost use Rattle.census_readback.specs.Engines.{after_engine};
ghost use Rattle.census_readback.specs.Told.{emits_told, engine_told, is_told, line_told, nothing_told, part_told, to_tell, told_after, told_next, told_of, told_so_far};

use crate::engines::{Emitted, LastEngine, Way};
use crate::lawful::{is_lawful, number_at};
use census_rows::{Behind, Label, Outcome, Row};
use life_cells::shorter;
use std::alloc::{AllocError, Global};
use std::cmp::Ordering;

// What the rows so far have said.
#[derive(Drop)]
pub struct Told<'a> {
    // The collection of the last line.
    pub collection: u64,
    // How many of its objects or engines are yet to be reported by rows after it.
    pub left: u64,
    // The last code that such a row has, or no byte.
    pub last: &'a [u8],
    // The last engine.
    pub engine: LastEngine<'a>,
}

// How many objects or engines the rows after a line have to report.
fn to_tell(outcome: &Outcome) -> u64
    ensures { result ≡ to_tell (said outcome.now).behind (said outcome.now) }
{
    match outcome.behind() {
        Behind::Nothing => 0,
        Behind::Parts => number_at(outcome, Label::Objects),
        Behind::Engines => number_at(outcome, Label::Engines),
    }
}

fn is_less(order: Ordering) -> bool
    ensures { result ≡ is_lt order }
{
    match order {
        Ordering::Less => true,
        Ordering::Equal => false,
        Ordering::Greater => false,
    }
}

impl<'a> Told<'a> {
    // Before any row.
    pub fn nothing(alloc: Global) -> Self
        ensures { told_of result ≡ nothing_told }
    {
        Told {
            collection: 0,
            left: 0,
            last: &[],
            engine: LastEngine::none(alloc),
        }
    }

    // Whether all objects or engines of the last line are reported.
    fn is_told(&self) -> bool
        ensures { result ≡ is_told (told_of self.now) }
    {
        self.left == 0 && self.engine.rises
    }

    // After a `line` row.
    fn line(self, alloc: Global, collection: u64, outcome: &Outcome) -> Option<Told<'a>>
        ensures { option_map told_of result ≡
            line_told (told_of self.entry) collection (said outcome.now) }
    {
        if self.is_told() {
            Some(Told {
                collection,
                left: to_tell(outcome),
                last: &[],
                engine: LastEngine::none(alloc),
            })
        } else {
            None
        }
    }

    // After a `part` row.
    fn part(self, collection: u64, code: &'a [u8], count: u64) -> Option<Told<'a>>
        ensures { option_map told_of result ≡ part_told (told_of self.entry) collection code.now count }
    {
        if collection == self.collection
            && count <= self.left
            && is_less(shorter(self.last, code))
        {
            Some(Told {
                left: self.left - count,
                last: code,
                ..self
            })
        } else {
            None
        }
    }

    // After an `engine` row.
    fn engine(
        self,
        alloc: Global,
        collection: u64,
        number: u64,
        way: Way,
        count: u64,
    ) -> Option<Told<'a>>
        ensures { option_map told_of result ≡ engine_told (told_of self.entry) collection count
            (after_engine (told_of self.entry).engine number way) }
    {
        if collection != self.collection || self.left < count {
            return None;
        }
        let engine = self.engine.after_engine(alloc, number, way)?;
        Some(Told {
            left: self.left - count,
            last: &[],
            engine,
            ..self
        })
    }

    // After an `emits` row.
    fn emits(
        self,
        collection: u64,
        engine: u64,
        emitted: Emitted<'a>,
    ) -> Result<Option<Told<'a>>, AllocError>
        ensures { IfOk result (λ after. option_map told_of after ≡
            emits_told (told_of self.entry) collection engine emitted.entry.code.now emitted.entry.count) }
    {
        if collection != self.collection
            || engine != self.engine.number
            || !is_less(shorter(self.last, emitted.code))
        {
            return Ok(None);
        }
        let Some(engine) = self.engine.after_emits(emitted)? else {
            return Ok(None);
        };
        Ok(Some(Told {
            last: emitted.code,
            engine,
            ..self
        }))
    }

    // After a row of another kind.
    fn so_far(self, alloc: Global) -> Option<Told<'a>>
        ensures { option_map told_of result ≡ told_so_far (told_of self.entry) }
    {
        if self.is_told() {
            Some(Told {
                engine: LastEngine::none(alloc),
                ..self
            })
        } else {
            None
        }
    }

    // After a row that reports growth.
    fn growth(self, alloc: Global, row: &Row<'a>) -> Result<Option<Told<'a>>, AllocError>
        requires { IsTrue (describes_growth row.now) }
        ensures { IfOk result (λ after. option_map told_of after ≡
            told_next (told_of self.entry) row.now) }
    {
        match row {
            Row::Engine {
                collection,
                number,
                period,
                dx,
                dy,
                count,
                ..
            } => {
                let way = Way {
                    period: *period,
                    dx: *dx,
                    dy: *dy,
                };
                Ok(self.engine(alloc, *collection, *number, way, *count))
            }
            Row::Emits {
                collection,
                engine,
                code,
                count,
                ..
            } => {
                let emitted = Emitted {
                    code: *code,
                    count: *count,
                };
                self.emits(*collection, *engine, emitted)
            }
            _ => Ok(None),
        }
    }

    fn next(self, alloc: Global, row: &Row<'a>) -> Result<Option<Told<'a>>, AllocError>
        ensures { IfOk result (λ after. option_map told_of after ≡
            told_next (told_of self.entry) row.now) }
    {
        match row {
            Row::Line {
                collection,
                outcome,
                ..
            } => Ok(self.line(alloc, *collection, outcome)),
            Row::Part {
                collection,
                code,
                count,
                ..
            } => Ok(self.part(*collection, *code, *count)),
            Row::Engine { .. } => self.growth(alloc, row),
            Row::Emits { .. } => self.growth(alloc, row),
            Row::End { .. } => {
                if self.is_told() {
                    Ok(Some(Told::nothing(alloc)))
                } else {
                    Ok(None)
                }
            }
            Row::Open { .. } => Ok(self.so_far(alloc)),
            Row::Code { .. } => Ok(self.so_far(alloc)),
            Row::Close { .. } => Ok(self.so_far(alloc)),
        }
    }

    // After this row, if it is lawful and fits what was told.
    pub fn after(self, alloc: Global, row: &Row<'a>) -> Result<Option<Told<'a>>, AllocError>
        ensures { IfOk result (λ after. option_map told_of after ≡
            told_after (told_of self.entry) row.now) }
    {
        if is_lawful(row) {
            self.next(alloc, row)
        } else {
            Ok(None)
        }
    }
}
