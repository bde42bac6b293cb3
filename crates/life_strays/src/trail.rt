//! Islands that are followed together with the cells that hang on them.
use life_cells::CellList;

/// The cells of an island, some cells that hang on it in a later generation, and whether it may still show that there is
/// no ash.
#[derive(Drop)]
pub struct Trail {
    pub set: CellList,
    pub heirs: CellList,
    pub tells: bool,
}
