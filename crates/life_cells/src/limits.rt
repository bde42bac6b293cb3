//! Limits on the coordinates of cells.

/// The coordinates of a pattern's cells at generation 0 are below this.
pub const PLACE_LIMIT: u32 = 1_048_576;

/// The coordinates of a list of cells are below this, and none is below minus this.
pub const COORDINATE_LIMIT: i32 = 16_777_216;
