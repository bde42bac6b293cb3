//! The possible observations about a pattern on the way to the bound.
use life_ash::Fate;
use life_growing::Growth;

/// The observation about a pattern within a bound, if no generation may have more cells than some number.
#[derive(Drop)]
pub enum Seen {
    /// It grows.
    Grows {
        /// Its growth.
        growth: Growth,
    },
    /// It has this fate, and whether it grows is open.
    Becomes {
        /// Its fate.
        fate: Fate,
    },
    /// It neither falls apart nor grows, and no generation has too many cells.
    Unresolved,
}
