//! What the words of a command line ask for: `run`, a census of collections; `objects`, a census of the objects in what
//! their patterns become; `identify`, what single patterns are; `advance`, a later generation of a pattern; `draw`, the
//! drawing of a code; `merge`, one report of several; `table`, a row for each pattern, part or code of reports; `page`, one
//! HTML page of reports; `same`, patterns of reports that are one object; `verify`,
//! claims about patterns compared with reports; help; or the version.
//!
//! Tested in `tests_program`.
#![tactic(auto)]

mod command;
mod fault;
mod help;
mod request;

pub use fault::WordsFault;
pub use request::{
    Asked, Census, Collections, PageAsked, PageSort, Reports, Request, TableFormat, TableSubject,
    read_words,
};
