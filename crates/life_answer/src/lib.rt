//! What is found about a pattern: the types, the definition of the answer, and the laws of that definition as the contracts of
//! functions that do nothing.
//!
//! Tested in `tests_patterns`.
#![tactic(auto)]

mod ash_laws;
mod code;
mod engine_list;
mod finding;
mod growth_laws;
mod laws;
mod part;
mod parts;
mod question;
mod refusal;
mod tale;

pub use ash_laws::{
    a_census_lasts, ash_of_one_part_recurs, ash_that_is_seen_sooner_is_found, nothing_else_is_ash,
    the_census_is_right,
};
pub use code::Code;
pub use engine_list::EngineList;
pub use finding::{Answer, Finding, Outcome};
pub use growth_laws::{
    nothing_else_is_told, tales_are_counted, tales_are_right, tales_tell_engines,
    what_is_answered_is_right, what_is_ash_never_grows, what_is_seen_sooner_is_told,
    what_is_told_goes_on, what_is_told_is_in_range, what_is_told_is_right, what_is_told_lasts,
};
pub use laws::{
    a_settled_set_recurs, a_text_is_found_or_refused, an_unresolved_set_settles_nowhere,
    codes_tell_objects, counts_know_no_order, one_finding, the_first_generation_past_the_limit,
    the_onset_of_ash_is_found, what_comes_again_is_no_ash,
};
pub use part::Part;
pub use parts::Parts;
pub use question::Question;
pub use refusal::refused;
pub use tale::{Engines, Tale};
