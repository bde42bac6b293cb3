//! The answers for patterns, and the collector, which takes results in any order and releases the report's lines in order: a
//! reorder buffer.
//!
//! Tested in `tests_program`.
#![tactic(auto)]

mod arrival;
mod arrivals;
mod collector;
mod done;
mod front;
mod no_room;
mod offer;
mod release;
mod results;
mod slots;

pub use arrivals::{every_arrival_is_lawful, every_order_is_lawful, taking_adds_one};
pub use collector::Collector;
pub use done::Done;
pub use no_room::NoRoom;
pub use offer::Offer;
