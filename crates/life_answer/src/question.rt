//! Questions about a pattern.

/// A question about a pattern.
#[derive(Clone, Copy, Debug, PartialEq, Eq)]
pub enum Question {
    /// The first generation that recurs, moved as a whole.
    Settles {
        /// The last generation that is examined: 1 to 1,000,000.
        bound: u32,
        /// The greatest number of cells that a generation from 0 to the bound may have; `None` for any number.
        cells: Option<u32>,
    },
    /// The objects that it has fallen apart into, its recurrence if that is one object, or the engines by which it grows.
    Objects {
        /// The generation by which it is to have fallen apart, and the longest period of an object: 1 to 100,000.
        bound: u32,
        /// The greatest number of cells that a generation from 0 to three times the bound may have; `None` for any number.
        /// Growth is reported from a generation n of the pattern only if no generation from 0 to 4 * n has more.
        cells: Option<u32>,
        /// True where things near one another count as one object; otherwise independent parts are counted.
        near: bool,
        /// The greatest number of generations within which growth is looked for: 1 to 10,000. It is never looked for beyond
        /// the bound.
        horizon: u32,
    },
}
