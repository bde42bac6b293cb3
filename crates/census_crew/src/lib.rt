//! A feed of the tickets of a bundle, the workers that draw from it, the report that is written from their results, and the
//! run.
//!
//! Each ticket comes out of a feed once, in rising order for each hand. Contracts see a feed as the list of items that it was
//! filled with, the tickets and then an end mark for each hand, and a hand as the list of items that it took.
//!
//! Tested in `tests_program`.
#![tactic(auto)]

mod answering;
mod bytes;
mod closing;
mod collecting;
mod feed;
mod filling;
mod gate;
mod hand;
mod handles;
mod item;
mod keeping;
mod losing;
mod run_state;
mod running;
mod tally;
mod turns;
mod view;
mod working;
mod writing;

pub use answering::{work, work_soon};
pub use bytes::run_bytes;
pub use gate::{Gate, OpenGate};
pub use handles::{Feed, Hand};
pub use item::Item;
pub use keeping::{run_keeping, run_keeping_untold};
pub use running::{run, run_on, run_untold, settle};
pub use tally::Tally;
pub use turns::{Begins, Ends, HandPass, Owner, Pops, Pushes, Steals, Thief, Turns};
pub use view::{Role, View};
