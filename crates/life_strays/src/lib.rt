//! Evidence about a pattern from a few islands of its cells and from its populations: that it is no ash, that it doesn't grow,
//! and the moments when populations have repeated for a while.
//!
//! The cells of an island hang on it, and so does any live cell of a later generation that is next to one that hung on it a
//! generation before, or at its place.
//!
//! A part of ash recurs after a period, moved or not, and so do all of its cells. Each island of a part is then among the cells
//! of a later generation, moved, and the cells that hang on it there are, moved back, among the first cells. So an island that
//! comes back nowhere, or only with something new, is no part of ash. This is checked in the later half of the bound, and then
//! from twice the bound to three times, since each period up to the bound has a multiple in either. The second check is for
//! guns: the shots that one has already fired are where later shots come by, until the later ones are further out than the
//! first.
//!
//! An engine recurs too. Cells that are neither in an engine nor leave one fall apart, so that after the horizon their islands
//! are parts of ash. So an island that comes back nowhere within the horizon, and becomes another one that comes back nowhere,
//! belongs to nothing that a growth is made of. Nothing else is followed: the rest of the pattern is only stepped, and a few
//! sets are looked for in it.
//!
//! Tested in `tests_objects`; `pace` and `uneven` there by `life_census`.
#![tactic(auto)]

mod choosing;
mod heirs;
mod islands;
mod pace;
mod refusing;
mod returning;
mod stray;
mod straying;
mod trail;
mod trailing;
mod uneven;

pub use pace::{Pace, STRIDE};
pub use refusing::{are_no_ash, never_grow, one_never_grows};
pub use uneven::is_uneven;
