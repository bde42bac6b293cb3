//! The possible fates of a pattern.
use crate::ash_orbits::Ash;
use life_apart::Trail;

/// The fate of a pattern within a bound, if no generation may have more than some number of cells.
#[derive(Drop)]
pub enum Fate {
    /// It falls apart.
    Ash {
        /// The parts.
        ash: Ash,
        /// The age of the generation that is ash of these parts, which is no greater than the bound.
        age: u32,
        /// Some generations on the way there.
        trail: Trail,
    },
    /// It has not fallen apart by the bound.
    Unresolved {
        /// True if it is seen to fall apart later.
        ends: bool,
    },
    /// Some generation from 0 to three times the bound has more cells than it may have.
    Large {
        /// The first such generation.
        generation: u32,
    },
}
