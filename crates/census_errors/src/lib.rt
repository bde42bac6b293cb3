//! Why commands do not do what they are asked for: the errors, the exit status and the line of each, its place, and the line
//! that explains it.
//!
//! Tested in `tests_program`.
#![tactic(auto)]

mod advance_error;
mod cuts;
mod draw_error;
mod error;
mod explaining;
mod files;
mod messages;
mod naming;
mod place;
mod run_error;
mod saying;
mod stopped;

pub use advance_error::AdvanceError;
pub use cuts::cut_line;
pub use draw_error::DrawError;
pub use error::CommandError;
pub use explaining::{run_saying, saying_of};
pub use files::file_of;
pub use naming::stop_at_file;
pub use place::{Place, file_place, kept_place};
pub use run_error::RunError;
pub use saying::{Saying, say_if, stop_saying};
pub use stopped::{RunStopped, Stopped};
