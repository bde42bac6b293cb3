//! Deciding whether two things ever meet.
ghost use Rattle.std.specs.Prelude.{◌↔◌, IsTrue};
ghost use Rattle.life_growth.specs.Things.{NeverMeet};
ghost use Rattle.life_things.specs.Clear.{StaysClear};
ghost use Rattle.life_things.specs.Fields.{IsFieldOf};
ghost use Rattle.life_things.specs.Lattice.Short.{IsShort, four_start};
ghost use Rattle.life_things.specs.Steps.{AreStrides, list_of};

use crate::field::{Field, field_of};
use crate::four::four_ways;
use crate::lattice::Step;
use crate::places::{no_way, one_way};
use crate::refusal::leads_away;
use crate::steps::{Steps, joined, steps_back, steps_forth};
use crate::thing::Thing;
use crate::three::three_ways;
use crate::together::are_never_together;
use crate::ways::two_ways;
use life_cells::CellList;

/// True if a set is never near the other, from the start on by some steps.
fn stays_clear(one: &CellList, other: &CellList, field: Field, start: Step, steps: Steps) -> bool
    requires start { IsShort four_start start }
    requires strides { AreStrides steps }
    requires field { IsFieldOf field one.now other.now }
    ensures { IsTrue result ↔ StaysClear one.now other.now start (list_of steps) }
{
    if are_never_together(start, steps) {
        return true;
    }
    if leads_away(start, steps, field) {
        return true;
    }
    match steps {
        Steps::Zero => no_way(one, other, field, start),
        Steps::One(a) => one_way(one, other, field, start, a),
        Steps::Two(a, b) => two_ways(one, other, field, start, a, b),
        Steps::Three(a, b, c) => three_ways(one, other, field, start, a, b, c),
        Steps::Four(a, b, c, d) => four_ways(one, other, field, start, (a, b, c, d)),
    }
}

impl Thing {
    /// True if the two things never meet: at no time at which both are there is one near the other.
    pub fn never_meets(&self, other: &Thing) -> bool
        ensures { IsTrue result ↔ NeverMeet self.now other.now }
    {
        let field = field_of(self.hull(), other.hull());
        let start = (self.time() as i128 - other.time() as i128, (0, 0));
        let steps = joined(steps_forth(self.ways()), steps_back(other.ways()));
        stays_clear(self.cells(), other.cells(), field, start, steps)
    }
}
