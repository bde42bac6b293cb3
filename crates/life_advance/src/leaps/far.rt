//! Live cells far to a side.
ghost use Rattle.std.specs.Prelude.{◌≡◌, ◌<◌, ◌⊎◌, None, Some, IfNone, IfSome, MatchOption};
ghost use Rattle.life_model.specs.Cell.{Cell};
ghost use Rattle.life_advance.specs.Leaps.Squares.{IsKept};
ghost use Rattle.life_advance.specs.Leaps.Stores.{view};
ghost use Rattle.life_advance.specs.Leaps.Cells.{IsListed, rows_cells};
ghost use Rattle.life_advance.specs.Leaps.Sites.{IsSite};
ghost use Rattle.life_advance.specs.Leaps.Spots.{AreSpotsOf, IsLiveIn, IsSpot};

use crate::leaps::site::Site;
use crate::leaps::square::empty_place;
use crate::leaps::store::Store;
use life_slots::Leaf;

/// A side of the plane.
#[derive(Clone, Copy)]
pub enum Side {
    North,
    South,
    West,
    East,
}

/// A square at a site.
#[derive(Clone, Copy)]
pub struct Spot {
    pub site: Site,
    pub place: u32,
}

/// The four quarters of a square.
#[derive(Clone, Copy)]
pub struct Spots {
    pub first: Spot,
    pub second: Spot,
    pub third: Spot,
    pub fourth: Spot,
}

/// True where a cell is further to a side than another.
fn is_further(side: Side, cell: (i32, i32), other: (i32, i32)) -> bool {
    match side {
        Side::North => cell.1 < other.1,
        Side::South => cell.1 > other.1,
        Side::West => cell.0 < other.0,
        Side::East => cell.0 > other.0,
    }
}

/// The one of two cells that is further to a side.
fn further(side: Side, one: Option<(i32, i32)>, other: Option<(i32, i32)>) -> Option<(i32, i32)>
    ensures some { IfSome result (λ cell. (one ≡ Some cell) ⊎ (other ≡ Some cell)) }
    ensures none { IfNone result ((one ≡ None) × (other ≡ None)) }
{
    let Some(first) = one else {
        return other;
    };
    let Some(second) = other else {
        return one;
    };
    if is_further(side, second, first) {
        return other;
    }
    one
}

/// The first live cell of a leaf.
fn cell_of_leaf(leaf: &Leaf, site: &Site) -> Option<(i32, i32)>
    requires site { IsSite site.now }
    requires level { site.now.level ≡ 0 }
    ensures { MatchOption result
        ((c : Cell) → IsListed (rows_cells site.now.left site.now.top leaf.now.rows 32) c → ⊥)
        (λ c. IsListed (rows_cells site.now.left site.now.top leaf.now.rows 32) c) }
{
    for y in 0..32 {
        let row = leaf.rows[y];
        if row != 0 {
            let x = row.trailing_zeros();
            return Some((site.left + x as i32, site.top + y as i32));
        }
    }
    None
}

impl Store {
    /// The quarters of a square, first the two on a side.
    fn spots(&self, side: Side, spot: &Spot) -> Spots
        requires kept { IsKept (view self.now) }
        requires spot { IsSpot (view self.now) spot.now }
        requires level { 0 < spot.now.site.level }
        ensures { AreSpotsOf (view self.now) spot.now result }
    {
        let quarters = self.quarters(spot.place);
        let sites = spot.site.quarters();
        let north_west = Spot {
            site: sites.north_west,
            place: quarters.north_west,
        };
        let north_east = Spot {
            site: sites.north_east,
            place: quarters.north_east,
        };
        let south_west = Spot {
            site: sites.south_west,
            place: quarters.south_west,
        };
        let south_east = Spot {
            site: sites.south_east,
            place: quarters.south_east,
        };
        match side {
            Side::North => Spots {
                first: north_west,
                second: north_east,
                third: south_west,
                fourth: south_east,
            },
            Side::South => Spots {
                first: south_west,
                second: south_east,
                third: north_west,
                fourth: north_east,
            },
            Side::West => Spots {
                first: north_west,
                second: south_west,
                third: north_east,
                fourth: south_east,
            },
            Side::East => Spots {
                first: north_east,
                second: south_east,
                third: north_west,
                fourth: south_west,
            },
        }
    }

    /// A live cell of a square, far to a side: no live cells are further in any of its leaves. `None` if none is live.
    pub fn far_cell(&self, side: Side, spot: &Spot) -> Option<(i32, i32)>
        requires kept { IsKept (view self.now) }
        requires spot { IsSpot (view self.now) spot.now }
        ensures { MatchOption result ((c : Cell) → IsLiveIn (view self.now) spot.now c → ⊥)
            (λ c. IsLiveIn (view self.now) spot.now c) }
    {
        if spot.place == empty_place(spot.site.level) {
            return None;
        }
        if spot.site.level == 0 {
            return cell_of_leaf(&self.leaves[spot.place as usize], &spot.site);
        }
        let spots = self.spots(side, spot);
        let first = self.far_cell(side, &spots.first);
        let second = self.far_cell(side, &spots.second);
        if let Some(cell) = further(side, first, second) {
            return Some(cell);
        }
        let third = self.far_cell(side, &spots.third);
        let fourth = self.far_cell(side, &spots.fourth);
        further(side, third, fourth)
    }
}
