//! The ash that a set falls apart into within a bound, as things in space and time, and the growth of a generation.
//!
//! `settling` has the former. The latter are the engines among the classes of a generation, and the outcomes of the cells
//! that leave them and of the debris beside them.
//!
//! Tested in `tests_objects`.
#![tactic(auto)]

mod apart;
mod emission;
mod engines;
mod finding;
mod going;
mod growth;
mod laws;
mod lefts;
mod loose;
mod picking;
mod refusal;
mod returning;
mod settling;
mod whole;

pub use emission::Engine;
pub use growth::{Growth, growth_of};
pub use laws::an_engine_is_made_of_its_things;
pub use refusal::are_no_engine;
pub use settling::{Settled, settled, what_settles_falls_apart, what_settles_is_made_of_things};
