//! Every fault that the program reports, in words: the line that explains an error, and the line that explains why a pattern was
//! refused. `rle` has those of patterns' texts.
//!
//! Tested in `tests_objects`.
#![tactic(auto)]

mod fault;
mod lines;
mod messages;
mod printing;
mod refusals;
mod rle;
mod run_fault;
mod sentences;
mod spot;

pub use fault::{Fault, rule_fault, text_fault};
pub use lines::{Lines, Words};
pub use messages::{Message, message, numbered};
pub use printing::{is_name_byte, printable_text, shown_names};
pub use refusals::refusal_lines;
pub use rle::{
    FileKind, Place, RuleKind, fault_line, fault_name, fault_words, line_and_column, place_of,
    rule_kind,
};
pub use run_fault::{BytesFault, RunFault};
pub use sentences::sentence;
pub use spot::{Spot, spot_of_bundle, spot_of_code, spot_of_text};
