//! Rows for spreadsheets and databases: one for each pattern of a report, each part, each thing that engines emit, or each code.
//!
//! Tested in `tests_reports`.
#![tactic(auto)]

mod called;
mod cell;
mod column;
mod comma;
mod counting;
mod engine;
mod engine_column;
mod entry;
mod json;
mod lines;
mod lists;
mod object;
mod object_column;
mod objects;
mod pattern;
mod place;
mod subject;
mod table;
mod thing;

pub use cell::{Cell, Field, safe_texts_are_no_formulas};
pub use column::Column;
pub use counting::Kinds;
pub use engine::{Emitted, EngineKind, EngineTold};
pub use engine_column::EngineColumn;
pub use entry::{EngineWay, Entry, entries_under};
pub use json::push_object;
pub use object::Object;
pub use object_column::ObjectColumn;
pub use objects::Objects;
pub use place::{OrderAtPlaces, Place, put_in_order};
pub use subject::{Choice, Subject, Table, table_of};
pub use table::{Format, each_line_has_a_row, put_listing};
