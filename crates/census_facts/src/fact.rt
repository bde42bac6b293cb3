//! Facts about a pattern.

use life_answer::{EngineList, Parts};

/// The value of a fact.
#[derive(Clone, Copy)]
pub enum Worth<'a> {
    /// A number.
    Number(u64),
    /// The width and height of something, in cells.
    Size(u32, u32),
    /// The number of cells that something moves to the right and down.
    Moves(i32, i32),
    /// Bytes. In JSON, those that are not UTF-8 become U+FFFD.
    Text(&'a [u8]),
    /// Parts, object by object.
    Parts(&'a Parts),
    /// Engines. Those with the same description are together.
    Engines(&'a EngineList),
}

/// A fact about a pattern: its name and its value.
#[derive(Clone, Copy)]
pub struct Fact<'a> {
    pub name: &'static str,
    pub worth: Worth<'a>,
}
