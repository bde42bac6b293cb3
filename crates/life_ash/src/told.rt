//! Conclusions from later generations about a plane's cells.
use life_orbit::Orbit;

/// The ash that a set becomes, or that it is no ash.
#[derive(Drop)]
pub enum Told {
    /// It becomes ash of these parts.
    Parts {
        /// The parts, in some order.
        parts: Vec<Orbit>,
        /// The number of generations after which it does.
        ago: u32,
    },
    /// It is no ash within the bound.
    Never,
    /// Neither is known.
    Nothing,
}
