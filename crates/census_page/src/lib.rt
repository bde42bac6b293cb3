//! One self-contained HTML page of a report.
//!
//! `own` has each text of pages that comes from the program; all else is escaped by `html`. Tested in `tests_reports`.
#![tactic(auto)]

mod called;
mod chosen;
mod code_row;
mod fate;
mod front;
mod growth;
mod holders;
mod html;
mod index;
mod kind;
mod kinds;
mod links;
mod list;
mod lives;
mod options;
mod own;
mod parts;
mod picture;
mod putting;
mod section;
mod sorting;
mod speed;
mod stroke;
mod tally;
mod view;
mod walking;
mod whole_page;

pub use html::an_escaped_text_has_no_markup;
pub use options::{PageOptions, Sort, default_options};
pub use whole_page::put_page;
