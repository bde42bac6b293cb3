//! Islands that are followed.
use life_cells::CellList;

/// The cells of an island, and some that hang on it in a later generation.
#[derive(Drop)]
pub struct Stray {
    pub set: CellList,
    pub heirs: CellList,
}
