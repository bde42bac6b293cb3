//! Sets of a pattern's cells, and what they have become.
use life_cells::CellList;

/// A class: its first cells, and the cells that they have become.
#[derive(Drop)]
pub struct Class {
    pub first: CellList,
    pub last: CellList,
}
