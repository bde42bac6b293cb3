//! What the words of a command line do.
//!
//! Tested in `tests_program`.
#![tactic(auto)]

mod advancing;
mod collections;
mod dispatching;
mod drawing;
mod entry_point;
mod forms;
mod identifying;
mod keeping;
mod laws;
mod remaking;
mod reporting;
mod running;
mod starting;

pub use dispatching::dispatch;
pub use entry_point::program;
pub use forms::Beside;
pub use laws::statuses_say_what_happened;
pub use watched::Streams;
