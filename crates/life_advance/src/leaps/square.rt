//! Squares of cells.

ghost use Rattle.std.specs.Prelude.{◌≡◌, ◌-◌, ◌↔◌, None, IsTrue};
ghost use Rattle.life_advance.specs.Leaps.Places.{empty_at};

/// The level of the square that a plane keeps its cells in: 2^25 by 2^25 cells.
pub const ROOT_LEVEL: u32 = 20;

/// The greatest level of a square.
pub const TOP_LEVEL: u32 = 21;

/// The four quarters of a square, as their places in the list of leaves or of squares.
#[derive(Clone, Copy, PartialEq, Eq, Debug)]
pub struct Quarters {
    pub north_west: u32,
    pub north_east: u32,
    pub south_west: u32,
    pub south_east: u32,
}

/// A square. One of level 0 is a leaf, of 32 by 32 cells, and one of each other level is made of four of the level below.
#[derive(Clone, Copy)]
pub struct Square {
    pub quarters: Quarters,
    /// The level of the quarters.
    pub level: u32,
    /// The square in the middle, half as wide, as many generations later as the store makes in one leap, if it is known.
    pub later: Option<u32>,
}

impl Square {
    /// The square with these quarters of a level, of which nothing is remembered.
    pub fn new(level: u32, quarters: &Quarters) -> Square
        ensures { result ≡ record { quarters = quarters.now; level = level; later = None } }
    {
        Square {
            quarters: *quarters,
            level,
            later: None,
        }
    }

    /// True only if these are the quarters, and of this level.
    pub fn is_made_of(&self, level: u32, quarters: &Quarters) -> bool
        ensures { IsTrue result → (self.now.level ≡ level) × (self.now.quarters ≡ quarters.now) }
    {
        self.level == level && self.quarters == *quarters
    }
}

/// The place of the empty square of a level.
pub fn empty_place(level: u32) -> u32
    ensures { result ≡ empty_at level }
{
    level.saturating_sub(1)
}

/// A number that depends on all bits of four places and of a level.
pub fn mix_quarters(level: u32, quarters: &Quarters) -> u64 {
    let north = u64::from(quarters.north_west) | u64::from(quarters.north_east) << 32;
    let south = u64::from(quarters.south_west) | u64::from(quarters.south_east) << 32;
    let mixed = north.wrapping_mul(0x9e37_79b9_7f4a_7c15)
        ^ south.rotate_left(29)
        ^ u64::from(level);
    mixed.wrapping_mul(0xd6e8_feb8_6659_fd93)
}
