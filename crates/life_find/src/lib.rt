//! When a pattern recurs: its onset, period, displacement and code.
//!
//! Tested in `tests_patterns`.
#![tactic(auto)]

mod answering;
mod apgcode;
mod brent;
mod candidates;
mod finding;
mod fingerprint;
mod larger;
mod laws;
mod limit;
mod lookout;
mod missing;
mod offset;
mod recurrence;
mod rounds;
mod sameness;
mod search;
mod soon;

pub use answering::answer;
pub use finding::{find, find_limited};
pub use laws::fingerprints_follow_moves;
pub use limit::BOUND_LIMIT;
pub use sameness::same_object;
pub use soon::answer_soon;
