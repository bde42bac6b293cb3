//! The classes of each generation of a film: the finest split of the generation into sets that stay apart up to the
//! film's end. All generations are made once, and read backwards.

mod bearers;
mod film;
mod forest;
mod frame;
mod joining;
mod nearby;
mod parents;
mod pieces;

pub use film::Film;
