//! Steps, each a number of generations and a move, and the numbers of times that each has to be made.
mod arrival;
mod crossing;
mod gauges;
mod numbers;
mod span;
mod step;
mod turn;

pub use arrival::{moved, rounds_to_none};
pub use crossing::{cross, parallel_numbers, plane_numbers, space_numbers};
pub use gauges::{across_gauge, along_gauge, turned_gauge};
pub use numbers::{Numbers, above, common_divisor, lightest};
pub use span::{Span, span_to};
pub use step::{Step, after, multiplied, product};
pub use turn::{Turn, first_in_turn, turn_of};
