//! Life-like rules, lists of cells, shapes of sets of cells, the eight maps of the plane, and Wechsler texts.
//!
//! Tested in `tests_patterns`.
#![tactic(auto)]

mod cell_list;
mod code_text;
mod cornering;
mod laws;
mod limits;
mod order;
mod orient;
mod reader;
mod rule;
mod shape;
mod writer;

pub use cell_list::{CellFault, CellList};
pub use code_text::{body_of, shorter};
pub use cornering::corner;
pub use laws::{a_text_is_lawful, a_text_spells_its_set, texts_tell_sets};
pub use limits::{COORDINATE_LIMIT, PLACE_LIMIT};
pub use order::put_in_order;
pub use orient::{Orient, eight_maps};
pub use reader::{CodeFault, read_wechsler};
pub use rule::{
    Rule, RuleFault, after_byte, after_either, forms, members_are_digits, printed_rules_are_read,
};
pub use shape::Shape;
