//! The facts that are reported about engines.
ghost use Rattle.std.specs.Prelude.{◌≡◌};
ghost use Rattle.std.specs.Cmp.Lexicographic.{slice_cmp};
ghost use Rattle.life_answer.specs.CountedTales.{part_cmp, tale_cmp};

use crate::part::Part;
use crate::parts::Parts;
use life_cells::shorter;
use std::cmp::Ordering;

/// The facts that are reported about an engine.
#[derive(Drop)]
pub struct Tale {
    /// The number of generations after which it recurs.
    pub period: u32,
    /// The number of columns that it has then moved to the right.
    pub dx: i32,
    /// The number of rows that it has then moved down.
    pub dy: i32,
    /// The objects that it emits in that time, with one entry for each object.
    pub emits: Parts,
}

/// Engines that have the same tale.
#[derive(Drop)]
pub struct Engines {
    /// The tale of each.
    pub tale: Tale,
    /// The number of engines.
    pub count: u64,
}

/// The order of parts: by code, then by number.
fn part_order(part: &Part, other: &Part) -> Ordering
    ensures { result ≡ part_cmp part.now other.now }
{
    shorter(part.code.as_slice(), other.code.as_slice()).then(part.count.cmp(&other.count))
}

/// The order of lists of parts: entry by entry, and a list that ends comes before one that continues.
fn parts_order(parts: &[Part], others: &[Part]) -> Ordering
    ensures { result ≡ slice_cmp part_cmp parts.now others.now }
{
    for n in 0..parts.len() {
        if n == others.len() {
            return Ordering::Greater;
        }
        match part_order(&parts[n], &others[n]) {
            Ordering::Equal => {}
            order => return order,
        }
    }
    if parts.len() < others.len() {
        return Ordering::Less;
    }
    Ordering::Equal
}

impl Tale {
    /// The order of tales: by period, then by the moves to the right and down, then by what is emitted.
    pub fn order(&self, other: &Tale) -> Ordering
        ensures { result ≡ tale_cmp self.now other.now }
    {
        let emits = parts_order(self.emits.as_slice(), other.emits.as_slice());
        let moved = self
            .dx
            .cmp(&other.dx)
            .then(self.dy.cmp(&other.dy).then(emits));
        self.period.cmp(&other.period).then(moved)
    }
}
