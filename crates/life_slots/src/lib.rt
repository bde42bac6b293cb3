//! Tiles in slots, and leaves, squares of 32 by 32 cells: the place of each slot's tile and the slots around it, the next
//! generation of the tiles, the cells that they have, and the middle of four leaves some generations later. Slot 0 has the empty
//! tile: links and indices name it where there is no slot. `kernels` has the laws of the code that computes 64 cells at a time.
//!
//! Tested in `tests_patterns`.
#![tactic(auto)]

mod area;
mod bands;
mod counting;
mod ends;
mod grid;
mod kernels;
mod later;
mod leaf;
mod leaf_listing;
mod listing;
mod rim;
mod seats;
mod slot;
mod starting;
mod stepping;
mod touched;

pub use bands::Bands;
pub use counting::count_cells;
pub use ends::{Ends, ends_of, is_before, is_void};
pub use grid::{corner_of, split};
pub use kernels::{
    each_row_is_of_a_set, strands_tell_the_next_generation, tiles_tell_the_next_generation,
    windows_tell_the_next_generation,
};
pub use later::middle_later;
pub use leaf::{FourLeaves, Leaf};
pub use listing::{push_row, push_seats, tile_in};
pub use rim::Rim;
pub use seats::{Seat, seats_by_rows};
pub use slot::{CENTRE, Slot, connect, links_around, neighbour, slot_or_none, with_link};
pub use starting::{clear_all, mark_near};
pub use stepping::{mark_all, next_tiles};
