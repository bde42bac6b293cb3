//! Things in space and time, in machine integers.
ghost use Rattle.std.specs.Prelude.{◌≡◌, ◌≤◌, All};
ghost use Rattle.life_orbit.specs.Hulls.{HoldsAllCells};
ghost use Rattle.life_things.specs.Ways.{IsFit, ways_of};

use crate::way::Ways;
use life_cells::{CellList, corner};
use life_orbit::{Hull, hull_of};
use std::marker::Model;

/// The greatest time at which a thing may first be there.
pub const TIME_LIMIT: u32 = 4_194_304;

/// A set of cells that is there at a time, and again after each of its ways, made any number of times.
#[derive(Drop)]
pub struct Thing {
    time: u32,
    cells: CellList,
    ways: Ways,
    hull: Hull,
}

impl Model for Thing {
    ghost use Rattle.std.specs.Prelude.{All, ◌≤◌};
    ghost use Rattle.life_growth.specs.Things as things;
    ghost use Rattle.life_orbit.specs.Hulls.{HoldsAllCells};
    ghost use Rattle.life_things.specs.Lattice.Short.{four_start};
    ghost use Rattle.life_things.specs.Ways.{IsFit, coded_thing, ways_of};

    ghost Value = { things.Thing };

    ghost coded = { coded_thing };

    ghost view = { λ t. record { time = t.time; set = t.cells; ways = ways_of t.ways } };

    ghost invariant = { λ t. HoldsAllCells t.hull t.cells × (All IsFit (ways_of t.ways) × (t.time ≤ four_start)) };
}

impl Thing {
    /// A set of cells that is first there at a time, up to `TIME_LIMIT`, with its ways. A way takes from 1 to
    /// `WAY_LIMIT` generations, and goes no further than that along an axis.
    pub fn new(time: u32, cells: CellList, ways: Ways) -> Thing
        requires time { time ≤ TIME_LIMIT }
        requires ways { All IsFit (ways_of ways) }
        ensures time { result.time ≡ time }
        ensures set { result.set ≡ cells }
        ensures ways { result.ways ≡ ways_of ways }
    {
        let hull = hull_of(corner(cells.as_slice()), std::slice::from_ref(&cells));
        Thing {
            time,
            cells,
            ways,
            hull,
        }
    }

    /// The time at which it is first there.
    pub fn time(&self) -> u32
        ensures time { result ≡ self.now.time }
        ensures few { result ≤ TIME_LIMIT }
    {
        self.time
    }

    /// Its cells at that time.
    pub fn cells(&self) -> &CellList
        ensures { result.now ≡ self.now.set }
    {
        &self.cells
    }

    /// Its ways.
    pub fn ways(&self) -> Ways
        ensures ways { self.now.ways ≡ ways_of result }
        ensures fit { All IsFit (ways_of result) }
    {
        self.ways
    }

    /// A box around its cells.
    pub fn hull(&self) -> Hull
        ensures { HoldsAllCells result self.now.set }
    {
        self.hull
    }
}
