//! What the `engine` and `emits` rows after a line say, one after another.
ghost use Rattle.std.specs.Prelude.{◌≡◌, ◌==◌, ◌+◌, IfOk, IsFalse, IsTrue, None, Some, map};
ghost use Rattle.std.specs.Option.{option_map};
ghost use Rattle.census_readback.specs.Engines.{after_emits, after_engine, compared, emitted_cmp, emitted_of, engine_of, gets_away, no_engine, to_compare, way_cmp};

use crate::code::is_moving;
use life_cells::shorter;
use std::alloc::{AllocError, Global};
use std::cmp::Ordering;

// What an `emits` row says.
#[derive(Clone, Copy)]
pub struct Emitted<'a> {
    pub code: &'a [u8],
    pub count: u64,
}

// After how many generations an engine recurs, and how far to the right and down it is then.
#[derive(Clone, Copy)]
pub struct Way {
    pub period: u64,
    pub dx: i64,
    pub dy: i64,
}

// What the last `engine` row says, and the `emits` rows after it.
#[derive(Drop)]
pub struct LastEngine<'a> {
    // 0 if there was no such row.
    pub number: u64,
    pub way: Way,
    pub emits: Vec<Emitted<'a>>,
    // The `emits` rows of the engine before it, if that goes the same way.
    pub before: Vec<Emitted<'a>>,
    // How many of them its own have been compared with, and are the same.
    pub compared: usize,
    // Whether it emits something and comes after the engine before it.
    pub rises: bool,
}

impl Way {
    // By period, by how far to the right, and by how far down.
    fn order(&self, other: &Way) -> Ordering
        ensures { result ≡ way_cmp self.now other.now }
    {
        let moved = self.dx.cmp(&other.dx).then(self.dy.cmp(&other.dy));
        self.period.cmp(&other.period).then(moved)
    }

    // Whether what has this code gets away from an engine that goes so: from one that doesn't move only what moves does.
    fn gets_away(&self, code: &[u8]) -> bool
        ensures { result ≡ gets_away self.now code.now }
    {
        (self.dx, self.dy) != (0, 0) || is_moving(code)
    }
}

impl<'a> Emitted<'a> {
    // By code, and then by number.
    fn order(&self, other: &Emitted) -> Ordering
        ensures { result ≡ emitted_cmp (emitted_of self.now) (emitted_of other.now) }
    {
        shorter(self.code, other.code).then(self.count.cmp(&other.count))
    }
}

// What an engine has to come after by what it emits, where `order` compares the way of the engine before it with its own.
fn to_compare<'a>(
    alloc: Global,
    order: Ordering,
    emits: Vec<Emitted<'a>>,
) -> Option<Vec<Emitted<'a>>>
    ensures { option_map (λ before. map emitted_of before.items) result ≡
        to_compare order (map emitted_of emits.entry.items) }
{
    match order {
        Ordering::Less => Some(Vec::new(alloc)),
        Ordering::Equal => Some(emits),
        Ordering::Greater => None,
    }
}

impl<'a> LastEngine<'a> {
    // Before any `engine` row.
    pub fn none(alloc: Global) -> Self
        ensures { engine_of result ≡ no_engine }
    {
        LastEngine {
            number: 0,
            way: Way {
                period: 0,
                dx: 0,
                dy: 0,
            },
            emits: Vec::new(alloc),
            before: Vec::new(alloc),
            compared: 0,
            rises: true,
        }
    }

    // After an `engine` row, if it may come after these.
    pub fn after_engine(self, alloc: Global, number: u64, way: Way) -> Option<LastEngine<'a>>
        ensures { option_map engine_of result ≡ after_engine (engine_of self.entry) number way }
    {
        if !self.rises || self.number.checked_add(1) != Some(number) {
            return None;
        }
        let before = to_compare(alloc, self.way.order(&way), self.emits)?;
        Some(LastEngine {
            number,
            way,
            emits: Vec::new(alloc),
            before,
            compared: 0,
            rises: false,
        })
    }

    // Compares the next of its `emits` rows with that of the engine before it. `false` if it can no longer come after that one.
    fn compare(&mut self, next: &Emitted<'a>) -> bool
        ensures yes { IsTrue result
            → compared (engine_of self.old) (emitted_of next.now) ≡ Some (engine_of self.new) }
        ensures no { IsFalse result
            → compared (engine_of self.old) (emitted_of next.now) ≡ None }
    {
        if self.rises {
            return true;
        }
        let Some(other) = self.before.get(self.compared) else {
            self.rises = true;
            return true;
        };
        match other.order(next) {
            Ordering::Less => {
                self.rises = true;
                true
            }
            Ordering::Equal => {
                self.compared += 1;
                true
            }
            Ordering::Greater => false,
        }
    }

    // After an `emits` row, if it may come after these.
    pub fn after_emits(mut self, next: Emitted<'a>) -> Result<Option<LastEngine<'a>>, AllocError>
        ensures { IfOk result (λ after. option_map engine_of after ≡
            after_emits (engine_of self.entry) (emitted_of next.entry)) }
    {
        if !self.way.gets_away(next.code) || !self.compare(&next) {
            return Ok(None);
        }
        self.emits.push(next)?;
        Ok(Some(self))
    }
}
