//! Planes (sets of cells that evolve) and their observers, rows of 64 cells that are computed at a time, tiles of 64 by 64
//! cells, and the kernel that makes eight of their rows at a time. `Strand`, `count_planes`, `next_row` and `Tile::next` are the
//! reference kernel, which applies the rule directly, and by which tests judge `band`.
//!
//! Tested in `tests_patterns`.
#![tactic(auto)]

mod adders;
mod answers;
mod band_sums;
mod eights;
mod evolve;
mod kernel;
mod list_plane;
mod logic;
mod moved;
mod observer;
mod offset;
mod plane;
mod row;
mod row_sums;
mod span;
mod strand;
mod tile;
mod window;

pub use adders::{Sum, full_adder};
pub use answers::next_row;
pub use eights::{end_of_eights, first_eight, has_cells};
pub use evolve::is_live;
pub use kernel::{Change, band};
pub use list_plane::ListPlane;
pub use logic::{Count, Logic, RulePolynomial};
pub use observer::{Observer, Unobserved};
pub use offset::offset_between;
pub use plane::{AGE_LIMIT, Plane};
pub use row_sums::{RowSums, sums};
pub use span::{move_between, span_of};
pub use strand::{Strand, count_planes};
pub use tile::{Around, Tile};
pub use window::{RowTriple, Window};
