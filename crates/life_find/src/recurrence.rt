//! A generation that recurs.

/// A generation that recurs, the number of steps after which it first does, and its displacement then.
#[derive(Clone, Copy)]
pub struct Recurrence {
    pub onset: u32,
    pub period: u32,
    pub displacement: (i32, i32),
}
