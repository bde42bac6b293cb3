//! The places of squares.
ghost use Rattle.std.specs.Prelude.{◌≡◌, ℕ, ℤ, pos, ◌+ℤ◌, ◌<◌, ◌≤◌, ◌≤ℤ◌, suc, MatchOption};
ghost use Rattle.life_advance.specs.Leaps.Cells.{IsInside};
ghost use Rattle.life_advance.specs.Leaps.Sites.{AreQuartersOf, IsPlaceIn, IsSite, corner, first_place, root_corner, root_level};

use crate::leaps::square::ROOT_LEVEL;

/// The first column and the first row of the square that has all cells of a plane.
const FIRST_PLACE: i32 = -16_777_216;

/// The width of that square.
const ROOT_WIDTH: u32 = 33_554_432;

/// The place of a square of a level.
#[derive(Clone, Copy)]
pub struct Site {
    pub level: u32,
    pub wide: u32,
    pub left: i32,
    pub top: i32,
}

/// The places of the four quarters of a square.
#[derive(Clone, Copy)]
pub struct Sites {
    pub north_west: Site,
    pub north_east: Site,
    pub south_west: Site,
    pub south_east: Site,
}

/// The number of a column among `wide` from a column on, if it is one of these. It is used for rows too.
fn column_of(z: i32, from: i32, wide: u32) -> Option<u32>
    requires first { first_place ≤ℤ from }
    requires last { (from +ℤ pos wide) ≤ℤ pos 16777216 }
    requires wide { wide ≤ 33554432 }
    ensures { MatchOption result ((x : ℕ) → x < wide → z ≡ (from +ℤ pos x) → ⊥)
        (λ x. (x < wide) × (z ≡ (from +ℤ pos x))) }
{
    if z < from {
        return None;
    }
    if from + wide as i32 <= z {
        return None;
    }
    Some((z - from) as u32)
}

impl Site {
    /// The place of the square that has all cells of a plane.
    pub fn root() -> Site
        ensures site { IsSite result }
        ensures level { result.level ≡ root_level }
        ensures corner { corner result ≡ root_corner }
    {
        Site {
            level: ROOT_LEVEL,
            wide: ROOT_WIDTH,
            left: FIRST_PLACE,
            top: FIRST_PLACE,
        }
    }

    /// The column and the row of the square that a cell is in.
    pub fn place_of(&self, cell: (i32, i32)) -> Option<(u32, u32)>
        requires { IsSite self.now }
        ensures { MatchOption result (IsInside self.now.level (corner self.now) cell → ⊥)
            (λ place. IsPlaceIn self.now cell place) }
    {
        let x = column_of(cell.0, self.left, self.wide)?;
        let y = column_of(cell.1, self.top, self.wide)?;
        Some((x, y))
    }

    /// The places of the quarters.
    pub fn quarters(&self) -> Sites
        requires site { IsSite self.now }
        requires level { 0 < self.now.level }
        ensures { AreQuartersOf self.now result }
    {
        let wide = self.wide / 2;
        let level = self.level - 1;
        let x = self.left + wide as i32;
        let y = self.top + wide as i32;
        Sites {
            north_west: Site {
                level,
                wide,
                left: self.left,
                top: self.top,
            },
            north_east: Site {
                level,
                wide,
                left: x,
                top: self.top,
            },
            south_west: Site {
                level,
                wide,
                left: self.left,
                top: y,
            },
            south_east: Site {
                level,
                wide,
                left: x,
                top: y,
            },
        }
    }
}
