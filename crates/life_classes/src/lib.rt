//! The finest split of a pattern's cells into sets that stay apart.
//!
//! Tested in `tests_objects`.
#![tactic(auto)]

mod class;
mod collecting;
mod forest;
mod inheriting;
mod joining;
mod labels;
mod nearness;
mod parting;
mod relabelling;
mod rows;
mod split;
mod splitting;
mod tags;
mod undivided;
mod unions;
mod walking;

pub use class::Class;
pub use forest::{join, root};
pub use nearness::reaches;
pub use splitting::{classes, classes_of, first_classes};
pub use tags::{ROW, place_number};
pub use undivided::{hold_together, is_undivided};
pub use unions::union;
