//! The inquiry about a pattern: the limits of the search, the objects that are counted, and the form of the answer.

use census_facts::Form;

/// The greatest number of generations within which growth is looked for.
pub const HORIZON_LIMIT: u32 = 10_000;

/// The inquiry about a pattern: the limits of the search, the objects that are counted, and the form of the answer.
#[derive(Clone, Copy, Debug, PartialEq, Eq)]
pub struct Inquiry {
    /// The number of generations that are searched, 1 to 100,000.
    pub bound: u32,
    /// The greatest number of live cells that a generation may have.
    pub cells: u32,
    /// True where parts that come near each other are counted as one object, and false where independent parts are counted.
    pub near: bool,
    /// The number of generations within which growth is looked for, 1 to 10,000.
    pub horizon: u32,
    /// The form of the answer.
    pub form: Form,
}
