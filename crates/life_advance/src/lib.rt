//! Later generations of a pattern, by steps in tiles and by leaps, whichever seems less work; and the plane that leaps.
//! `width` shows by leaps that a pattern grows too wide to recur.
//!
//! Tested in `tests_objects`.
#![tactic(auto)]

mod advancing;
mod effort;
mod leaping;
mod leaps;
mod walking;
mod width;

pub use advancing::generation_of;
pub use leaps::{LeapPlane, NoLeap, Side};
pub use width::{outgrows, what_settles_stays_narrow};
