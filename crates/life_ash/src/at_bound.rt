//! The result for the generation of a bound.
use crate::ash_orbits::Ash;

/// The cells of a plane that is as old as the bound, by whether they are ash.
#[derive(Drop)]
pub enum AtBound {
    /// They are.
    Ash {
        /// The parts.
        ash: Ash,
    },
    /// They are not.
    NoAsh {
        /// True if they are seen to become ash later.
        ends: bool,
    },
}
