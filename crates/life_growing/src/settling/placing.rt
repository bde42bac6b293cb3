//! Placing things later, and elsewhere.
ghost use Rattle.std.specs.Prelude.{◌≡◌, ◌++◌, ◌*◌, ◌≤◌, All, IfOk};
ghost use Rattle.life_model.specs.Generation as generations;
ghost use Rattle.life_cells.specs.Limits.{IsWithin};
ghost use Rattle.life_things.specs.Lattice.Short.{way_limit};
ghost use Rattle.life_things.specs.Ways.{ways_of};
ghost use Rattle.life_growing.specs.Settled.Placing.{IsFitWay, IsPlacing, placed_age_limit, placed_by, ways_of_one};

use crate::settling::moving::moved;
use life_cells::CellList;
use life_things::{Thing, Way, Ways};
use std::alloc::{AllocError, Global};

/// The greatest number of generations by which things are placed later.
pub const DELAY_LIMIT: u32 = 100_000;

/// The placing of things: `time` generations later, moved, and with a way before a thing's own.
#[derive(Clone, Copy)]
pub struct Placing {
    pub time: u32,
    pub by: (i32, i32),
    pub way: Option<Way>,
}

/// The first way and then the second, where they are there.
fn both(way: Option<Way>, own: Option<Way>) -> Ways
    ensures { ways_of result ≡ ways_of_one way ++ ways_of_one own }
{
    match (way, own) {
        (Some(way), Some(own)) => Ways::Twice(way, own),
        (Some(way), None) => Ways::Once(way),
        (None, Some(own)) => Ways::Once(own),
        (None, None) => Ways::Never,
    }
}

impl Placing {
    /// The thing that is these cells at this time, with its own way, placed.
    pub fn thing(
        &self,
        alloc: Global,
        time: u32,
        cells: &CellList,
        own: Option<Way>,
    ) -> Result<Thing, AllocError>
        requires placing { IsPlacing self.now }
        requires time { time ≤ 2 * way_limit }
        requires within { All (IsWithin placed_age_limit) (generations.cells cells.now) }
        requires own { IsFitWay own }
        ensures { IfOk result (λ thing. thing ≡ placed_by self.now
            (record { time = time; set = cells.now; ways = ways_of_one own })) }
    {
        let cells = moved(alloc, cells, self.by)?;
        Ok(Thing::new(self.time + time, cells, both(self.way, own)))
    }
}
