//! Squares side by side, and what a store computes of them.
ghost use Rattle.std.specs.Prelude.{◌≡◌};

use crate::leaps::square::Quarters;
use life_cells::Rule;
use life_plane::Logic;

/// The task of a store: the middle of each square 2^exponent generations later, if it is wide enough for that, and
/// otherwise as many generations later as its width allows.
#[derive(Clone, Copy)]
pub struct Step {
    pub rule: Rule,
    pub logic: Logic,
    pub exponent: u32,
    /// The work after which nothing is begun.
    pub work: u64,
}

/// Four squares of one level side by side, from west to east.
#[derive(Clone, Copy)]
pub struct FourInRow {
    pub first: u32,
    pub second: u32,
    pub third: u32,
    pub fourth: u32,
}

/// Three squares of one level side by side.
#[derive(Clone, Copy)]
pub struct ThreeInRow {
    pub west: u32,
    pub middle: u32,
    pub east: u32,
}

/// Two squares of one level side by side.
#[derive(Clone, Copy)]
pub struct TwoInRow {
    pub west: u32,
    pub east: u32,
}

/// The northern quarters of two squares side by side.
pub fn northern(west: Quarters, east: Quarters) -> FourInRow
    ensures { result ≡ record {
      first = west.north_west;
      second = west.north_east;
      third = east.north_west;
      fourth = east.north_east;
    } }
{
    FourInRow {
        first: west.north_west,
        second: west.north_east,
        third: east.north_west,
        fourth: east.north_east,
    }
}

/// The southern quarters of two squares side by side.
pub fn southern(west: Quarters, east: Quarters) -> FourInRow
    ensures { result ≡ record {
      first = west.south_west;
      second = west.south_east;
      third = east.south_west;
      fourth = east.south_east;
    } }
{
    FourInRow {
        first: west.south_west,
        second: west.south_east,
        third: east.south_west,
        fourth: east.south_east,
    }
}
