//! The possible findings about a pattern on its way from generation to generation.
use life_orbit::Orbit;

/// The finding on the way.
#[derive(Drop)]
pub enum Found {
    /// The generation of this age is ash of these parts.
    Parts {
        /// The parts, in some order.
        parts: Vec<Orbit>,
        /// The age.
        age: u32,
    },
    /// Some generation has more cells than it may have.
    Large {
        /// The first such generation.
        generation: u32,
    },
    /// Neither was found up to the end of the walk.
    Nothing,
}
