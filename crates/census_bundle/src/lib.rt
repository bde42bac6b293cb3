//! Bundles of patterns, and the tickets that name their patterns.
//!
//! Tested in `tests_program`.
#![tactic(auto)]

mod bundle;
mod bytes;
mod fault;
mod last;
mod limits;
mod lines;
mod names;
mod reading;
mod ticket;

pub use bundle::{AddFault, Bundle, Entries, Entry, Folder, Text};
pub use bytes::Bytes;
pub use fault::BundleFault;
pub use limits::INPUT_LIMIT;
pub use names::is_lawful_name;
pub use reading::read_bundle;
pub use ticket::Ticket;
